//! Rewritten classes keep the rules of class files.
ghost use Rattle.rewritten_form.specs.FormLaw.{FormLaw};

/// Each class that rewriting a folder gives keeps the rules of class files (JVM Specification, Java SE 7, chapter 4), the helper of arrays among them.
pub fn form_law()
    ensures { FormLaw }
{}
