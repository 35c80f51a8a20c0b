//! The texts of string constants, and where these lie (JVM Specification, Java SE 7, section 4.4.3).
ghost use Rattle.std.specs.Prelude.{◌≡◌, ◌+◌, ◌++◌, map, length, option_copied, option_map, IfOk, OnOk};
ghost use Rattle.std.specs.List.{flat_map};
ghost use Rattle.jmodel.specs.format.ClassFile.{ClassFile as ClassForm};
ghost use Rattle.jmodel.specs.format.Pool.{string_in as text_in};
ghost use Rattle.objects.specs.linking.Layout.{in_text_order as sorted_texts, some_text, texts_of as texts_of_classes, places_from as places_behind, text_places as places_of_texts, fixed_words as words_before};
ghost use Rattle.heap_layout.specs.Texts.{pool_texts, class_texts};

use crate::fields::bases_end;
use crate::sums::sum;
use const_pool::{ClassFile, Constant, Pool};
use jmodel::{Bytes, NoMemory};
use std::alloc::{AllocError, Global};
use std::collections::BTreeSet;

// The texts as a set.
fn set_of<'a>(alloc: Global, texts: &[&'a [u8]]) -> Result<BTreeSet<&'a [u8]>, NoMemory>
    ensures { IfOk result (λ s. map (λ t. t.now) s.keys ≡ sorted_texts (map (λ t. t.now) texts.now)) }
{
    let mut set = BTreeSet::new(alloc);
    for text in texts.iter().rev() {
        set.insert(*text)?;
    }
    Ok(set)
}

/// Texts in byte order, each once.
pub fn in_text_order<'a>(alloc: Global, texts: &[&'a [u8]]) -> Result<Vec<&'a [u8]>, NoMemory>
    ensures { IfOk result (λ v. map (λ t. t.now) v.items ≡ sorted_texts (map (λ t. t.now) texts.now)) }
{
    let set = set_of(alloc, texts)?;
    Ok(set.into_iter().collect(alloc)?)
}

// The text of a String.
fn text_in<'a>(pool: &'a Pool, entry: &Constant) -> Option<&'a Bytes>
    ensures { option_copied result ≡ text_in pool.now entry.now }
{
    match entry {
        Constant::Text(text) => pool.utf8(*text),
        _ => None,
    }
}

// Puts the texts of a pool's Strings at the end.
fn push_texts<'a>(pool: &'a Pool, texts: &mut Vec<&'a [u8]>) -> Result<(), AllocError>
    ensures { OnOk result (map (λ t. t.now) texts.new.items ≡ map (λ t. t.now) texts.old.items ++ pool_texts pool.now) }
{
    for entry in pool.entries() {
        if let Some(text) = text_in(pool, entry) {
            texts.push(text.as_slice())?;
        }
    }
    Ok(())
}

// The texts of all String entries, class by class.
fn all_texts<'a>(alloc: Global, classes: &[&'a ClassFile]) -> Result<Vec<&'a [u8]>, AllocError>
    ensures { IfOk result (λ v. map (λ t. t.now) v.items ≡ class_texts (map (λ c. c.now) classes.now)) }
{
    let mut texts = Vec::new(alloc);
    for class in classes {
        push_texts(&class.pool, &mut texts)?;
    }
    Ok(texts)
}

/// The texts of all String entries of classes, in byte order, each once.
pub fn texts_of<'a>(alloc: Global, classes: &[&'a ClassFile]) -> Result<Vec<&'a [u8]>, NoMemory>
    ensures { IfOk result (λ v. map (λ t. t.now) v.items ≡ texts_of_classes (map (λ c. c.now) classes.now)) }
{
    let texts = all_texts(alloc, classes)?;
    in_text_order(alloc, texts.as_slice())
}

// So many addresses one after another, for texts.
fn places_from(alloc: Global, from: u64, texts: &[&[u8]]) -> Result<Vec<u64>, AllocError>
    ensures { IfOk result (λ v. v.items ≡ places_behind from (map (λ t. t.now) texts.now)) }
{
    let mut places = Vec::new(alloc);
    let mut place = from;
    for _text in texts {
        places.push(place)?;
        place = sum(place, 1)?;
    }
    Ok(places)
}

/// The addresses of the string constants of classes, in the order of their texts. They lie behind the static bases, each of one word.
pub fn text_places(alloc: Global, classes: &[&ClassFile]) -> Result<Vec<u64>, NoMemory>
    ensures { IfOk result (λ v. v.items ≡ places_of_texts (map (λ c. c.now) classes.now)) }
{
    let texts = texts_of(alloc, classes)?;
    Ok(places_from(alloc, bases_end(classes)?, texts.as_slice())?)
}

/// The first address behind the static bases and the string constants of classes.
pub fn fixed_words(alloc: Global, classes: &[&ClassFile]) -> Result<u64, NoMemory>
    ensures { IfOk result (λ n. n ≡ words_before (map (λ c. c.now) classes.now)) }
{
    let texts = texts_of(alloc, classes)?;
    Ok(sum(bases_end(classes)?, texts.len() as u64)?)
}
