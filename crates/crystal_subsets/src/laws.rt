//! The law of the tops of tensor products.
ghost use Rattle.crystal_subsets.specs.ProductTops.{TopsOfProducts, ListedTops};

/// In the standard tensor order x ⊗ y is a top exactly where y is a top and x is one beside the weight of y, for words
/// over any lists of factors of one type, without the limits of a space; in Kashiwara's order the same holds of y ⊗ x.
/// So for a vertex x of a finished graph and a top y, that product is a top exactly where `product_tops` lists x. The
/// call does nothing: its contract is the theorem.
pub fn product_tops_law()
    ensures tops { TopsOfProducts }
    ensures listed { ListedTops }
{}
