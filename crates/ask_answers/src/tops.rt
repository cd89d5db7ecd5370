//! Tops of products with the crystal of a shape.
ghost use Rattle.std.specs.Prelude.{◌≡◌, IfOk};
ghost use Rattle.tableau_reading.specs.Shapes.{shape_weight};
ghost use Rattle.crystal_subsets.specs.ProductTops.{tops_beside};

use canonical_graph::Finished;
use crystal_cartan::Weight;
use crystal_streams::NoMemory;
use crystal_subsets::product_tops;
use std::alloc::Global;
use tableau_reading::Shape;

/// The vertices that are tops beside the weight of a shape, in ascending rank, each with the sum of the two weights.
/// Each of them followed by the top word of the shape, in Kashiwara's tensor order behind it, is a highest weight element
/// of the product with the crystal of the shape.
pub(crate) fn tops_beside_shape(
    alloc: Global,
    finished: &Finished,
    shape: &Shape,
) -> Result<Vec<(u32, Weight)>, NoMemory>
    requires { shape.now.cartan ≡ finished.now.space.cartan }
    ensures { IfOk result (λ tops. tops.items ≡ tops_beside finished.now (shape_weight shape.now)) }
{
    product_tops(alloc, finished, &shape.weight())
}
