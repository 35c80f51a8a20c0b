//! The classes and methods of the library that every program knows.
ghost use Rattle.std.specs.Prelude.{◌≡◌, bytes_eq, map};
ghost use Rattle.std.specs.List.{list_any};
ghost use Rattle.objects.specs.linking.Library.{library as library_names};
ghost use Rattle.objects.specs.linking.Reserved.{is_free_name as free_name};
ghost use Rattle.objects.specs.linking.LibraryMethods.{is_library as of_library, is_final_library as final_of_library, throwables as names_of_throwables, is_like as has_one_of, is_library_constructor as constructor_of_library, is_library_function as function_of_library, is_library_method as method_of_library, is_object_method as method_of_object};

use crate::reference::Reference;
use crate::text::equal;

fn library() -> [&'static [u8]; 20]
    ensures { map (λ b. b.now) result ≡ library_names }
{
    [
        b"java/lang/Object",
        b"java/lang/String",
        b"java/lang/Math",
        b"java/lang/Throwable",
        b"java/lang/Exception",
        b"java/lang/Error",
        b"java/lang/RuntimeException",
        b"java/lang/ArithmeticException",
        b"java/lang/ArrayStoreException",
        b"java/lang/ClassCastException",
        b"java/lang/IllegalArgumentException",
        b"java/lang/IllegalStateException",
        b"java/lang/IndexOutOfBoundsException",
        b"java/lang/NegativeArraySizeException",
        b"java/lang/NullPointerException",
        b"java/lang/UnsupportedOperationException",
        b"java/lang/ArrayIndexOutOfBoundsException",
        b"java/lang/LinkageError",
        b"java/lang/IncompatibleClassChangeError",
        b"java/lang/AbstractMethodError",
    ]
}

fn is_among(name: &[u8], names: &[&[u8]]) -> bool
    ensures { result ≡ list_any (bytes_eq name.now) (map (λ b. b.now) names.now) }
{
    for known in names {
        if equal(name, known) {
            return true;
        }
    }
    false
}

/// Whether no class of the library has this name.
pub fn is_free_name(name: &[u8]) -> bool
    ensures { result ≡ free_name name.now }
{
    !is_among(name, &library())
}

/// Whether a class of the library has this name.
pub fn is_library(name: &[u8]) -> bool
    ensures { result ≡ of_library name.now }
{
    is_among(name, &library())
}

/// Whether it is the name of a final class of the library.
pub fn is_final_library(name: &[u8]) -> bool
    ensures { result ≡ final_of_library name.now }
{
    equal(name, b"java/lang/String") || equal(name, b"java/lang/Math")
}

// Whether it is the name of Throwable or a class below it.
fn is_throwable(name: &[u8]) -> bool
    ensures { result ≡ list_any (bytes_eq name.now) names_of_throwables }
{
    is_among(name, &library()[3..])
}

// Whether a member has this name and one of these descriptors.
fn is_like(name: &[u8], descriptors: &[&[u8]], r: &Reference) -> bool
    ensures { result ≡ has_one_of name.now (map (λ d. d.now) descriptors.now) r.now }
{
    equal(r.name, name) && is_among(r.descriptor, descriptors)
}

/// Whether it is a constructor of the library.
pub fn is_library_constructor(r: &Reference) -> bool
    ensures { result ≡ constructor_of_library r.now }
{
    equal(r.class, b"java/lang/Object") && is_like(b"<init>", &[b"()V"], r)
        || is_throwable(r.class) && is_like(b"<init>", &[b"()V", b"(Ljava/lang/String;)V"], r)
}

/// Whether it is a static method of the library.
pub fn is_library_function(r: &Reference) -> bool
    ensures { result ≡ function_of_library r.now }
{
    equal(r.class, b"java/lang/Math")
        && (is_like(b"abs", &[b"(I)I", b"(J)J"], r)
            || is_like(b"min", &[b"(II)I", b"(JJ)J"], r)
            || is_like(b"max", &[b"(II)I", b"(JJ)J"], r))
}

/// Whether it is a method of the library.
pub fn is_library_method(r: &Reference) -> bool
    ensures { result ≡ method_of_library r.now }
{
    is_library_constructor(r) || is_library_function(r)
}

/// Whether the name and the descriptor are those of a method that Object declares in Java, whatever class is named.
pub fn is_object_method(r: &Reference) -> bool
    ensures { result ≡ method_of_object r.now }
{
    is_like(b"toString", &[b"()Ljava/lang/String;"], r)
        || is_like(b"equals", &[b"(Ljava/lang/Object;)Z"], r)
        || is_like(b"hashCode", &[b"()I"], r)
        || is_like(b"getClass", &[b"()Ljava/lang/Class;"], r)
        || is_like(b"clone", &[b"()Ljava/lang/Object;"], r)
        || is_like(b"finalize", &[b"()V"], r)
        || is_like(b"notify", &[b"()V"], r)
        || is_like(b"notifyAll", &[b"()V"], r)
        || is_like(b"wait", &[b"()V", b"(J)V", b"(JI)V"], r)
}
