//! Laws of linking.
ghost use Rattle.objects.specs.linking.Taken.{TakenLaw};
ghost use Rattle.objects.specs.laws.LinkingLaw.{FilesLaw, MeaningLaw, OpeningLaw, SourceLaw, TypesLaw, UpwardLaw};

/// Where classes have no fault of what stands above them, no count of steps cuts a way upward short: above a class stand its superclass, and what
/// stands above that, and so with its interfaces.
pub fn upward_law()
    ensures { UpwardLaw }
{}

/// The types of the program of classes without a fault keep the rules of source: the run-time test of types and typing agree, and each field is
/// among the words of its class.
pub fn types_law()
    ensures { TypesLaw }
{}

/// The program that classes without a fault are linked to is source: its types, fields, methods, instructions and names keep the rules that rewriting
/// rests on. The classes are as they are read from a folder.
pub fn source_law()
    ensures { SourceLaw }
{}

/// So it is of class files in whatever order, which are linked in that of their classes' names.
pub fn files_law()
    ensures { FilesLaw }
{}

/// The taken methods of classes are the least set that has the marked ones, the static initialisers, each method that one of the set calls by its name and
/// descriptor, and each constructor that one of the set calls.
pub fn taken_law()
    ensures { TakenLaw }
{}

/// The words that memory begins with stand for the state before the first call, which has the objects of static fields and the string constants.
pub fn opening_law()
    ensures { OpeningLaw }
{}

/// Classes as they are read are linked to a program or refused: each instruction that decodes and has no construct that is left out means something.
pub fn meaning_law()
    ensures { MeaningLaw }
{}
