ghost use Rattle.std.specs.Option.{ForSome};
ghost use Rattle.wc_f4.specs.NameOrder.{OrdersNames};

use std::alloc::Global;
use wc_model::{Image, Name};

/// The names of an image. The first one that is asked for is found in the table; later ones in the order of
/// names, which is made once.
#[derive(Drop)]
pub struct Lookup<'a> {
    pub alloc: Global,
    pub image: &'a Image,
    pub is_asked: bool,
    pub order: Option<Vec<Name>>,
    ghost ordered: { ForSome order (λ v. OrdersNames image.now v.items) },
}
