//! Two small images.

ghost use Rattle.std.specs.Prelude.{◌≡◌};
ghost use Rattle.promise_rows.specs.Small as specs;

use promises::{Growth, Site, Spoken};

/// An image of a chip whose stack grows so.
#[derive(Clone, Copy)]
pub struct SmallImage {
    pub growth: Growth,
}

fn below(pc: u16) -> Site
    ensures { result ≡ specs.below pc }
{
    if pc == 0xF00E {
        return Site::Store { size: 1 };
    }
    if pc == 0xF010 {
        return Site::Store { size: 2 };
    }
    if pc == 0xF012 {
        return Site::Way;
    }
    if 0xC000 <= pc && pc <= 0xCFFF {
        return Site::Store { size: 1 };
    }
    Site::Nothing
}

fn above(pc: u16) -> Site
    ensures { result ≡ specs.above pc }
{
    if pc == 0x000A {
        return Site::Store { size: 1 };
    }
    if pc == 0x000C {
        return Site::Way;
    }
    Site::Nothing
}

impl Spoken for SmallImage {
    ghost use Rattle.promise_rows.specs.Small.{small};

    ghost spoken = { λ image. small image.growth };

    fn growth(&self) -> Growth {
        self.growth
    }

    fn site_at(&self, pc: u16) -> Site {
        match self.growth {
            Growth::Down => below(pc),
            Growth::Up => above(pc),
        }
    }
}
