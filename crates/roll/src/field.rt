// A field of a record that is outside its limits.
ghost use Rattle.roll.specs.Fields.{unless_outside};
ghost use Rattle.std.specs.Prelude.{◌≡◌, cond, Some, None};

// Such a field as the rules tell it: by the byte of its record where it begins.
#[derive(Clone, Copy, Debug, PartialEq, Eq)]
pub struct FieldFault {
    pub offset: u8,
}

// The fault of the field that begins at a byte of its record, if the field is outside its limits.
pub(crate) fn unless(outside: bool, offset: u8) -> Result<(), FieldFault>
    ensures { result ≡ unless_outside (cond outside (Some offset) None) }
{
    if outside {
        Err(FieldFault { offset })
    } else {
        Ok(())
    }
}
