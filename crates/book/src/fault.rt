// Why an opening is refused.
ghost use Rattle.std.specs.Prelude.{◌≡◌};
ghost use Rattle.book.specs.Faults.{layer_of, number_of, place_of};
ghost use Rattle.book.specs.declared.fault.OpenFault.TheVariants as cases;

use crate::checks::RollCheck;
use roll::RollFault;

// Which layer found the fault.
#[derive(Clone, Copy, Debug, PartialEq, Eq)]
pub enum Layer {
    Image,
    Roll,
    Book,
}

#[derive(Clone, Copy, Debug, PartialEq, Eq)]
pub enum OpenFault {
    // The roll layer's fault, whole.
    Roll(RollFault),
    // The first record that fails a check against the others.
    Record(RollCheck, u8),
}

impl OpenFault {
    // The layer that found the fault.
    pub fn layer(self) -> Layer
        ensures is_the_layer_that_found_it { result ≡ layer_of self }
    {
        match self {
            OpenFault::Roll(RollFault::Image(_)) => Layer::Image,
            OpenFault::Roll(RollFault::Field(_)) => Layer::Roll,
            OpenFault::Record(_, _) => Layer::Book,
        }
    }

    // The number by which the fault is told. No discriminant: the rules give one number to faults of several layers.
    pub fn number(self) -> u8
        ensures is_the_listed_number { result ≡ number_of self }
    {
        match self {
            OpenFault::Roll(fault) => fault.number(),
            OpenFault::Record(check, _) => check.number(),
        }
    }

    // The byte of the image, or the record of its table, at which the fault is told.
    pub fn place(self) -> u16
        ensures is_the_byte_or_the_record { result ≡ place_of self }
    {
        match self {
            OpenFault::Roll(fault) => fault.place(),
            OpenFault::Record(_, place) => u16::from(place),
        }
    }
}

impl From<RollFault> for OpenFault {
    ghost from_gives = { λ fault r. r ≡ cases.Roll fault };

    fn from(fault: RollFault) -> OpenFault {
        OpenFault::Roll(fault)
    }
}
