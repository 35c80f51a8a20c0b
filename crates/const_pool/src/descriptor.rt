//! Descriptors of fields and methods (JVM Specification, Java SE 7, section 4.3).
ghost use Rattle.std.specs.Prelude.{◌≡◌, ℕ, List, ◌+◌, ◌<◌, ◌≤◌, length, IfSome, option_map, option_copied, is_some, position, ◌==◌};
ghost use Rattle.jmodel.specs.format.Descriptor.{places as places_of_type, is_array_name as array_name};
ghost use Rattle.jmodel.specs.format.DescriptorReading.{base as base_of, brackets as brackets_of, class_rest as after_class, element_rest as after_element, type_rest as after_type, type_of, closing as after_closing, types_at, with_places, result_of, is_field_descriptor as is_field, is_method_descriptor as is_method};
ghost use Rattle.const_pool.specs.Places.{text_places};

use jmodel::FieldType;

/// Whether a class's name begins as an array's does. Takes no memory.
pub fn is_array_name(name: &[u8]) -> bool
    ensures { result ≡ array_name name.now }
{
    match name {
        [] => false,
        [first, ..] => *first == b'[',
    }
}

// The type that a letter stands for.
pub fn base(letter: u8) -> Option<FieldType>
    ensures { result ≡ base_of letter }
{
    match letter {
        b'B' => Some(FieldType::Byte),
        b'C' => Some(FieldType::Char),
        b'D' => Some(FieldType::Double),
        b'F' => Some(FieldType::Float),
        b'I' => Some(FieldType::Int),
        b'J' => Some(FieldType::Long),
        b'S' => Some(FieldType::Short),
        b'Z' => Some(FieldType::Boolean),
        _ => None,
    }
}

fn is_base(letter: u8) -> bool
    ensures { result ≡ is_some (base_of letter) }
{
    matches!(
        letter,
        b'B' | b'C' | b'D' | b'F' | b'I' | b'J' | b'S' | b'Z'
    )
}

fn first_semicolon(bytes: &[u8]) -> Option<usize>
    ensures exact { result ≡ position (λ c. c == 59) bytes.now }
    ensures inside { IfSome result (λ n. n < length bytes.now) }
{
    bytes.iter().position(|c| *c == b';')
}

// What follows a class's name and its semicolon.
fn class_rest(bytes: &[u8]) -> Option<&[u8]>
    ensures exact { option_copied result ≡ after_class bytes.now }
    ensures shorter { IfSome result (λ rest. length rest.now < length bytes.now) }
{
    match first_semicolon(bytes) {
        None | Some(0) => None,
        Some(_) if bytes[0] == b'[' => None,
        Some(end) => Some(&bytes[end + 1..]),
    }
}

// What follows a type that is no array.
#[tactic(auto, unfolding(jmodel::specs::format::DescriptorReading::element_rest))]
fn element_rest(bytes: &[u8]) -> Option<&[u8]>
    ensures exact { option_copied result ≡ after_element bytes.now }
    ensures shorter { IfSome result (λ rest. length rest.now < length bytes.now) }
{
    match bytes {
        [] => None,
        [letter, rest @ ..] => {
            if is_base(*letter) {
                Some(rest)
            } else if *letter == b'L' {
                class_rest(rest)
            } else {
                None
            }
        }
    }
}

fn brackets(bytes: &[u8]) -> usize
    ensures exact { result ≡ brackets_of bytes.now }
    ensures inside { result ≤ length bytes.now }
{
    bytes.iter().take_while(|c| **c == b'[').count()
}

// What follows a field descriptor.
#[tactic(auto, unfolding(jmodel::specs::format::DescriptorReading::type_rest))]
pub fn type_rest(bytes: &[u8]) -> Option<&[u8]>
    ensures exact { option_copied result ≡ after_type bytes.now }
    ensures shorter { IfSome result (λ rest. length rest.now < length bytes.now) }
{
    let dimensions = brackets(bytes);
    if dimensions > 255 {
        return None;
    }
    element_rest(&bytes[dimensions..])
}

/// Whether the bytes are a field descriptor. Takes no memory.
#[tactic(auto, unfolding(jmodel::specs::format::DescriptorReading::is_field_descriptor))]
pub fn is_field_descriptor(bytes: &[u8]) -> bool
    ensures { result ≡ is_field bytes.now }
{
    match type_rest(bytes) {
        Some(rest) => rest.is_empty(),
        None => false,
    }
}

// How many places a value of the descriptor's type takes.
#[tactic(auto, unfolding(jmodel::specs::format::DescriptorReading::type_of))]
fn places(text: &[u8]) -> usize
    ensures exact { result ≡ places_of_type (type_of text.now) }
    ensures few { result ≤ 2 }
{
    match text {
        [b'J' | b'D', ..] => 2,
        _ => 1,
    }
}

// What follows a closing parenthesis.
pub fn closing(bytes: &[u8]) -> Option<&[u8]>
    ensures { option_copied result ≡ after_closing bytes.now }
{
    match bytes {
        [] => None,
        [first, rest @ ..] => { if *first == b')' { Some(rest) } else { None } }
    }
}

// The places that types up to a closing parenthesis take, and what follows it.
fn parameters_end(bytes: &[u8]) -> Option<(usize, &[u8])>
    ensures { option_map {U = ℕ × List ℕ} (λ p. (p.0, p.1.now)) result ≡ with_places 0 (types_at 256 bytes.now) }
{
    let mut total: usize = 0;
    let mut rest = bytes;
    for _ in 0..256usize {
        if let Some(after) = closing(rest) {
            return Some((total, after));
        }
        let after = type_rest(rest)?;
        total += places(&rest[..rest.len() - after.len()]);
        rest = after;
    }
    None
}

// Whether the bytes are V or a field descriptor.
#[tactic(auto, unfolding(jmodel::specs::format::DescriptorReading::result_of))]
fn is_result(bytes: &[u8]) -> bool
    ensures { result ≡ is_some (result_of bytes.now) }
{
    match bytes {
        [] => false,
        [b'V', rest @ ..] => rest.is_empty(),
        _ => is_field_descriptor(bytes),
    }
}

/// The places that the parameters of a method descriptor take, at most 255, None where the bytes are none. Takes no memory.
#[tactic(auto, unfolding(jmodel::specs::format::DescriptorReading::signature_of))]
pub fn parameter_places(bytes: &[u8]) -> Option<u8>
    ensures { result ≡ text_places bytes.now }
{
    match bytes {
        [b'(', rest @ ..] => {
            let (total, result_type) = parameters_end(rest)?;
            if total <= 255 && is_result(result_type) {
                Some(total as u8)
            } else {
                None
            }
        }
        _ => None,
    }
}

/// Whether the bytes are a method descriptor, whose parameters take at most 255 places. Takes no memory.
pub fn is_method_descriptor(bytes: &[u8]) -> bool
    ensures { result ≡ is_method bytes.now }
{
    parameter_places(bytes).is_some()
}
