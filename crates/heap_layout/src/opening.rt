//! The words of memory before the first call (JVM Specification, Java SE 7, section 4.7.2).
ghost use Rattle.std.specs.Prelude.{◌≡◌, ◌≤◌, ◌<◌, ◌-◌, ◌++◌, ◌*◌, ◌^◌, List, length, map, replicate, option_copied, IfOk, OnOk};
ghost use Rattle.jmodel.specs.format.ClassFile.{ClassFile as ClassForm};
ghost use Rattle.jmodel.specs.format.Constants.{named_entry as entry_named, constant_of as constant_of_field};
ghost use Rattle.objects.specs.linking.StaticBases.{has_base as with_base};
ghost use Rattle.objects.specs.linking.Members.{statics};
ghost use Rattle.objects.specs.semantics.WordTypes.{narrowed as narrowed_to};
ghost use Rattle.objects.specs.semantics.State.{header as header_of};
ghost use Rattle.objects.specs.semantics.Value.{word_of};
ghost use Rattle.objects.specs.linking.Layout.{constant_text as text_of_constant, opening_value, opening_words as words_before, base_images, text_object};
ghost use Rattle.hierarchy.specs.Names.{AreFirst};
ghost use Rattle.heap_layout.specs.Opening.{text_key, image_of, ArePlaces, text_value};

use crate::fields::bases_end;
use crate::sums::sum;
use crate::text::{equal, string_class};
use crate::texts::texts_of;
use crate::types::{field_type, word_kind};
use crate::words::count_statics;
use const_pool::{ClassFile, Constant, FieldType, Member, Pool};
use hierarchy::constants::{int_value, long_value, pair_number};
use hierarchy::names::Numbers;
use hierarchy::symbols::{find_attribute, is_static};
use jmodel::{Bytes, NoMemory};
use objects::op::WordType;
use std::alloc::{AllocError, Global};

// The header of a string constant, whose class is the second of the library.
const TEXT: u64 = 2 << 32;

// String constants: their numbers by their texts, and the address of the first.
struct TextPlaces<'a> {
    numbers: Numbers<'a>,
    from: u64,
}

impl Drop for TextPlaces<'_> {
    fn drop(self) {
        let Self {
            numbers: _,
            from: _,
        } = self;
    }
}

// The numbers of texts.
fn numbered<'a>(alloc: Global, texts: &[&'a [u8]]) -> Result<Numbers<'a>, NoMemory>
    ensures { IfOk result (λ n. AreFirst n (map text_key (map (λ t. t.now) texts.now))) }
{
    let mut numbers = Numbers::new(alloc);
    for (number, text) in texts.iter().enumerate() {
        numbers.note(text, b"", b"", number)?;
    }
    Ok(numbers)
}

// The entry that an attribute of two bytes names.
fn named_entry<'a>(pool: &'a Pool, bytes: &[u8]) -> Option<&'a Constant>
    ensures { option_copied result ≡ entry_named pool.now bytes.now }
{
    match bytes {
        [a, b] => pool.entry(pair_number(*a, *b)),
        _ => None,
    }
}

// The entry that the first ConstantValue of a field names.
fn constant_of<'a>(pool: &'a Pool, field: &Member) -> Option<&'a Constant>
    ensures { option_copied result ≡ constant_of_field pool.now field.now }
{
    let found = find_attribute(pool, b"ConstantValue", field.attributes.as_slice())?;
    named_entry(pool, found.bytes.as_slice())
}

// The text of a String that a field's constant is.
fn constant_text<'a>(pool: &'a Pool, field: &Member) -> Option<&'a Bytes>
    ensures { option_copied result ≡ text_of_constant pool.now field.now }
{
    match constant_of(pool, field) {
        Some(Constant::Text(text)) => pool.utf8(*text),
        _ => None,
    }
}

// What a word of a type keeps of an int: its low 1, 8 or 16 bits, with their sign where the type has one.
fn narrowed(word_type: WordType, x: i32) -> i32
    ensures { result ≡ narrowed_to word_type x }
{
    match word_type {
        WordType::Boolean => (x.cast_unsigned() % 2).cast_signed(),
        WordType::Byte => i32::from(((x.cast_unsigned() % (1 << 8)) as u8).cast_signed()),
        WordType::Char => (x.cast_unsigned() % (1 << 16)).cast_signed(),
        WordType::Short => i32::from(((x.cast_unsigned() % (1 << 16)) as u16).cast_signed()),
        WordType::Int | WordType::Long | WordType::Reference => x,
    }
}

// The reference of the string constant that a field's constant is, 0 where it is none.
fn text_word<'a>(texts: &TextPlaces<'a>, pool: &'a Pool, field: &Member) -> Result<u64, AllocError>
    ensures { IfOk result (λ w. (cs : List ClassForm) → ArePlaces cs texts.now.numbers texts.now.from → w ≡ text_value cs pool.now field.now) }
{
    let Some(text) = constant_text(pool, field) else {
        return Ok(0);
    };
    match texts.numbers.get(text.as_slice(), b"", b"") {
        Some(number) => Ok(sum(texts.from, number as u64)?),
        None => Ok(0),
    }
}

// The word that a static field holds at first: what its type keeps of its constant, where that is of its kind, else 0.
fn opening_word<'a>(
    alloc: Global,
    texts: &TextPlaces<'a>,
    pool: &'a Pool,
    field: &Member,
) -> Result<u64, AllocError>
    ensures { IfOk result (λ w. (cs : List ClassForm) → ArePlaces cs texts.now.numbers texts.now.from → w ≡ word_of (opening_value cs pool.now field.now)) }
{
    match field_type(alloc, pool, field)? {
        FieldType::Reference(name) => {
            if equal(name.as_slice(), string_class()) {
                text_word(texts, pool, field)
            } else {
                Ok(0)
            }
        }
        FieldType::Long => Ok(long_value(pool, field).unwrap_or(0).cast_unsigned()),
        FieldType::Float | FieldType::Double => Ok(0),
        t => {
            let constant = int_value(pool, field).unwrap_or(0);
            Ok(i64::from(narrowed(word_kind(&t), constant)).cast_unsigned())
        }
    }
}

// A word for each static field.
fn static_words<'a>(
    alloc: Global,
    texts: &TextPlaces<'a>,
    class: &'a ClassFile,
) -> Result<Vec<u64>, AllocError>
    ensures { IfOk result (λ v. (cs : List ClassForm) → ArePlaces cs texts.now.numbers texts.now.from → v.items ≡ map (λ m. word_of (opening_value cs class.now.pool m)) (statics class.now)) }
{
    let mut words = Vec::new(alloc);
    for member in &class.fields {
        if is_static(member) {
            words.push(opening_word(alloc, texts, &class.pool, member)?)?;
        }
    }
    Ok(words)
}

// The header of an object of a type, if its number has 32 bits.
fn header(number: u64) -> Result<u64, AllocError>
    ensures { IfOk result (λ word. word ≡ number * 2 ^ 32) }
{
    number.checked_mul(1 << 32).ok_or(AllocError)
}

// Appends the words of the static base of a class, whose type has this number. Answers whether it has one.
fn append_image<'a>(
    alloc: Global,
    texts: &TextPlaces<'a>,
    words: &mut Vec<u64>,
    class: &'a ClassFile,
    number: u64,
) -> Result<bool, AllocError>
    ensures words { OnOk result ((cs : List ClassForm) → ArePlaces cs texts.now.numbers texts.now.from → words.new.items ≡ words.old.items ++ image_of cs number class.now) }
    ensures has_base { IfOk result (λ b. b ≡ with_base class.now) }
{
    if count_statics(class) == 0 {
        return Ok(false);
    }
    words.push(header(number)?)?;
    words.append(&mut static_words(alloc, texts, class)?)?;
    Ok(true)
}

// Appends the words of the static bases of classes.
fn append_images<'a>(
    alloc: Global,
    texts: &TextPlaces<'a>,
    words: &mut Vec<u64>,
    classes: &[&'a ClassFile],
) -> Result<(), AllocError>
    requires { ArePlaces (map (λ c. c.now) classes.now) texts.now.numbers texts.now.from }
    ensures { OnOk result (words.new.items ≡ words.old.items ++ base_images (map (λ c. c.now) classes.now) 0 (map (λ c. c.now) classes.now)) }
{
    let mut number = sum(classes.len() as u64, 21)?;
    for class in classes {
        if append_image(alloc, texts, words, class, number)? {
            number = sum(number, 1)?;
        }
    }
    Ok(())
}

// Appends a header for each text.
fn append_texts(words: &mut Vec<u64>, texts: &[&[u8]]) -> Result<(), AllocError>
    ensures { OnOk result (words.new.items ≡ words.old.items ++ map (λ t. header_of text_object) (map (λ t. t.now) texts.now)) }
{
    for _text in texts {
        words.push(TEXT)?;
    }
    Ok(())
}

/// The words of memory before the first call: two that hold 0, then the static bases of classes, then the string constants. Want of memory also where
/// the number of a type has more than 32 bits.
pub fn opening_words<'a>(alloc: Global, classes: &'a [&'a ClassFile]) -> Result<Vec<u64>, NoMemory>
    ensures { IfOk result (λ v. v.items ≡ words_before (map (λ c. c.now) classes.now)) }
{
    let texts = texts_of(alloc, classes)?;
    let places = TextPlaces {
        numbers: numbered(alloc, texts.as_slice())?,
        from: bases_end(classes)?,
    };
    let mut words = vec![in alloc; 0; 2]?;
    append_images(alloc, &places, &mut words, classes)?;
    append_texts(&mut words, texts.as_slice())?;
    Ok(words)
}

/// The words of memory before the first call, with those of so many regions of this size: behind the opening words all hold 0.
pub fn memory_words<'a>(
    alloc: Global,
    classes: &'a [&'a ClassFile],
    size: usize,
    regions: usize,
) -> Result<Vec<u64>, NoMemory>
    requires room { length (words_before (map (λ c. c.now) classes.now)) ≤ size * regions }
    requires size { size * regions < 2 ^ 32 }
    ensures { IfOk result (λ v. v.items ≡ words_before (map (λ c. c.now) classes.now) ++ replicate (size * regions - length (words_before (map (λ c. c.now) classes.now))) 0) }
{
    let mut words = opening_words(alloc, classes)?;
    words.resize(size * regions, 0)?;
    Ok(words)
}
