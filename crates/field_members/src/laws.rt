//! Laws of the members that are added for fields: what they mean when the rewritten class is read again.
ghost use Rattle.field_members.specs.FieldsLaw.{FieldsLaw};
ghost use Rattle.field_members.specs.AccessorsLaw.{AccessorsLaw};

/// In rewritten code, a read of an added field is a constant: the place of the field, or the object of the class's static fields.
pub fn fields_law()
    ensures { FieldsLaw }
{}

/// The accessors that are added to a class, decoded with the symbols of rewritten classes, are those of its fields.
pub fn accessors_law()
    ensures { AccessorsLaw }
{}
