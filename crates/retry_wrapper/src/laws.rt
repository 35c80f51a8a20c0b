//! A law of wrappers: what they mean when the rewritten class is read again.
ghost use Rattle.retry_wrapper.specs.WrapperLaw.{WrapperLaw};

/// The wrapper that is put in the place of a method's code, decoded with the symbols of rewritten classes, is that of the method.
pub fn wrapper_law()
    ensures { WrapperLaw }
{}
