// What can be wrong with an image, up to the limits of its fields.
ghost use Rattle.std.specs.Prelude.{◌≡◌};
ghost use Rattle.roll.specs.Faults.{number_of, place_of};
ghost use Rattle.roll.specs.declared.fault.RollFault.TheVariants as cases;

use image::ImageFault;

#[derive(Clone, Copy, Debug, PartialEq, Eq)]
pub enum RollFault {
    // The image layer's fault, whole.
    Image(ImageFault),
    // A field is outside its limits; its first byte in the image.
    Field(u16),
}

impl RollFault {
    // The number by which the fault is told. The rules give it to several faults, so it is no discriminant of the enum.
    pub fn number(self) -> u8
        ensures is_the_listed_number { result ≡ number_of self }
    {
        match self {
            RollFault::Image(fault) => fault.number(),
            RollFault::Field(_) => 14,
        }
    }

    // The byte at which the fault is told.
    pub fn place(self) -> u16
        ensures is_the_listed_byte { result ≡ place_of self }
    {
        match self {
            RollFault::Image(fault) => fault.place(),
            RollFault::Field(place) => place,
        }
    }
}

impl From<ImageFault> for RollFault {
    ghost from_gives = { λ fault r. r ≡ cases.Image fault };

    fn from(fault: ImageFault) -> RollFault {
        RollFault::Image(fault)
    }
}
