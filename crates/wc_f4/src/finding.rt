ghost use Rattle.std.specs.Prelude.{◌≡◌, IfOk};
ghost use Rattle.wc_f4.specs.NameOrder.{OrdersNames};
ghost use Rattle.wc_f4.specs.Reading.{found};
ghost use Rattle.wc_f4.specs.Views.{known};
ghost use Rattle.wc_model.specs.Program.Words.{address_of};

use crate::lookups::Lookup;
use crate::name_order::{first_called, in_order};
use std::alloc::{AllocError, Global};
use wc_base::Addr;
use wc_elf::find;
use wc_model::{Image, Name};

/// The address that a symbol's name stands for, unless it is that of Thumb code.
fn address_of(symbol: Option<Name>) -> Option<Addr>
    ensures { result ≡ found (address_of symbol) }
{
    let symbol = symbol?;
    if symbol.function && symbol.value % 2 == 1 {
        return None;
    }
    Some(symbol.value)
}

impl<'a> Lookup<'a> {
    pub fn new(alloc: Global, image: &'a Image) -> Lookup<'a>
        ensures { result.image.now ≡ image.now }
    {
        Lookup {
            alloc,
            image,
            is_asked: false,
            order: None,
        }
    }

    /// Takes the order of names out, or makes it.
    fn take_order(&mut self) -> Result<Vec<Name>, AllocError>
        ensures order { IfOk result (λ order. OrdersNames self.old.image.now order.items) }
        ensures same { self.new.image.now ≡ self.old.image.now }
    {
        match self.order.take() {
            Some(order) => Ok(order),
            None => in_order(self.alloc, self.image),
        }
    }

    /// The address that a name in a text stands for.
    pub fn find(&mut self, name: &[u8]) -> Result<Option<Addr>, AllocError>
        ensures found { IfOk result (λ at. at ≡ known self.old name.now) }
        ensures same { self.new.image.now ≡ self.old.image.now }
    {
        if !self.is_asked {
            self.is_asked = true;
            return Ok(find(self.image, name).ok());
        }
        let order = self.take_order()?;
        let symbol = first_called(&order, self.image, name);
        self.order = Some(order);
        Ok(address_of(symbol))
    }
}
