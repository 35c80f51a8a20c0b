//! What stands above each of classes, by places: each place once, in the order in which a search upward meets it first.
ghost use Rattle.std.specs.Prelude.{◌≡◌, true, ◌∷◌, ◌++◌, [], List, ℕ, length, map, IfOk, OnOk, Some, bytes_eq, slice_get};
ghost use Rattle.std.specs.List.{flat_map, list_any};
ghost use Rattle.jmodel.specs.format.ClassFile.{ClassFile as ClassForm};
ghost use Rattle.objects.specs.linking.Resolution.{interface_names, names_above, ancestry as ancestry_of_name, above as above_class, method_way as method_way_of_name, is_above_itself as above_itself};
ghost use Rattle.jmodel.specs.format.Pool.{text_or_none, class_name};
ghost use Rattle.objects.specs.linking.Members.{own_name as name_of_class};
ghost use Rattle.objects.specs.linking.Superclasses.{lineage as lineage_of_name};
ghost use Rattle.hierarchy.specs.Places.{place_of};
ghost use Rattle.resolution.specs.Ways.{FindSame, AreMarks, IsTable, AreListed, AreReached, AreWays, AreNamedWays, IsWay, HasWays, entry_at, entry_of, places_of, classes_at, some_class};

use crate::text::equal;
use const_pool::{ClassFile, Pool};
use hierarchy::places::Places;
use hierarchy::symbols::{class_text, own_name, super_name};
use jmodel::NoMemory;
use std::alloc::{AllocError, Global};
use std::marker::Model;

// Puts a place behind others, unless it is marked as one of them.
fn put(list: &mut Vec<usize>, marks: &mut Vec<bool>, place: usize) -> Result<(), AllocError>
    requires { AreMarks marks.old.items list.old.items }
    ensures marks { OnOk result (AreMarks marks.new.items list.new.items) }
    ensures same { OnOk result (FindSame list.new.items (list.old.items ++ place ∷ [])) }
{
    if place < marks.len() {
        if marks[place] {
            return Ok(());
        }
        marks[place] = true;
    }
    list.push(place)?;
    Ok(())
}

// The same of each of some places.
fn put_all(list: &mut Vec<usize>, marks: &mut Vec<bool>, places: &[usize]) -> Result<(), AllocError>
    requires { AreMarks marks.old.items list.old.items }
    ensures marks { OnOk result (AreMarks marks.new.items list.new.items) }
    ensures same { OnOk result (FindSame list.new.items (list.old.items ++ places.now)) }
{
    for place in places {
        put(list, marks, *place)?;
    }
    Ok(())
}

// What stands in a table at some places, each place once.
fn joined(alloc: Global, table: &[Vec<usize>], places: &[usize]) -> Result<Vec<usize>, AllocError>
    ensures { IfOk result (λ v. FindSame v.items (flat_map (entry_at (map (λ e. e.items) table.now)) places.now)) }
{
    let mut list = Vec::new(alloc);
    let mut marks = vec![in alloc; false; table.len()]?;
    for place in places {
        if let Some(entry) = table.get(*place) {
            put_all(&mut list, &mut marks, entry.as_slice())?;
        }
    }
    Ok(list)
}

// A place, and what stands in a table at some others.
fn behind(
    alloc: Global,
    table: &[Vec<usize>],
    place: usize,
    others: &[usize],
) -> Result<Vec<usize>, AllocError>
    ensures { IfOk result (λ v. FindSame v.items (place ∷ flat_map (entry_at (map (λ e. e.items) table.now)) others.now)) }
{
    let mut list = vec![in alloc; place]?;
    let mut above = joined(alloc, table, others)?;
    list.append(&mut above)?;
    Ok(list)
}

// What is reached in one step more than a table has, where the other table has what stands right above.
fn next_table(
    alloc: Global,
    direct: &[Vec<usize>],
    table: &[Vec<usize>],
) -> Result<Vec<Vec<usize>>, AllocError>
    ensures { IfOk result (λ v. IsTable (λ p. p ∷ flat_map (entry_at (map (λ e. e.items) table.now)) (entry_at (map (λ e. e.items) direct.now) p)) (length direct.now) (map (λ e. e.items) v.items)) }
{
    let mut next = Vec::new(alloc);
    for (place, others) in direct.iter().enumerate() {
        next.push(behind(alloc, table, place, others.as_slice())?)?;
    }
    Ok(next)
}

fn are_equal(list: &[usize], other: &[usize]) -> bool
    ensures { result ≡ true → list.now ≡ other.now }
{
    list == other
}

// Whether two tables have the same lists.
fn are_same(table: &[Vec<usize>], other: &[Vec<usize>]) -> bool
    ensures { result ≡ true → (p : ℕ) → entry_at (map (λ e. e.items) table.now) p ≡ entry_at (map (λ e. e.items) other.now) p }
{
    if table.len() != other.len() {
        return false;
    }
    for (place, entry) in table.iter().enumerate() {
        if !are_equal(entry.as_slice(), other[place].as_slice()) {
            return false;
        }
    }
    true
}

// What is reached from each place in as many steps as there are places, where a table has what stands right above. Stops where one step
// more reaches nothing new.
fn reached(alloc: Global, direct: &[Vec<usize>]) -> Result<Vec<Vec<usize>>, AllocError>
    ensures { IfOk result (λ v. (cs : List ClassForm) → length cs ≡ length direct.now → AreListed cs names_above (map (λ e. e.items) direct.now) → AreReached cs (length cs) (map (λ e. e.items) v.items)) }
{
    let mut table = Vec::new(alloc);
    for _step in 0..direct.len() {
        let next = next_table(alloc, direct, table.as_slice())?;
        if are_same(next.as_slice(), table.as_slice()) {
            return Ok(table);
        }
        table = next;
    }
    Ok(table)
}

// The places of the classes of some names, by their indexes of the pool, each once.
fn listed_places<'a>(
    alloc: Global,
    places: &Places<'a>,
    pool: &'a Pool,
    indexes: &[u16],
) -> Result<Vec<usize>, AllocError>
    ensures { IfOk result (λ v. FindSame v.items (places_of places.now (map (λ i. text_or_none (class_name pool.now i)) indexes.now))) }
{
    let mut list = Vec::new(alloc);
    let mut marks = vec![in alloc; false; places.len()]?;
    for index in indexes {
        if let Some(place) = places.place_of(class_text(pool, *index)) {
            put(&mut list, &mut marks, place)?;
        }
    }
    Ok(list)
}

// The places of what a class lists as interfaces, each once.
fn interfaces_of<'a>(
    alloc: Global,
    places: &Places<'a>,
    class: &'a ClassFile,
) -> Result<Vec<usize>, AllocError>
    ensures { IfOk result (λ v. FindSame v.items (places_of places.now (interface_names class.now))) }
{
    listed_places(alloc, places, &class.pool, class.interfaces.as_slice())
}

// The places right above a class: those of its interfaces, then that of its superclass.
fn direct_of<'a>(
    alloc: Global,
    places: &Places<'a>,
    class: &'a ClassFile,
) -> Result<Vec<usize>, AllocError>
    ensures { IfOk result (λ v. FindSame v.items (places_of places.now (names_above class.now))) }
{
    let mut list = interfaces_of(alloc, places, class)?;
    if let Some(place) = places.place_of(super_name(class)) {
        list.push(place)?;
    }
    Ok(list)
}

// For each class the places of what it lists as interfaces.
fn all_interfaces(alloc: Global, places: &Places) -> Result<Vec<Vec<usize>>, AllocError>
    ensures { IfOk result (λ v. AreListed places.now interface_names (map (λ e. e.items) v.items)) }
{
    let mut table = Vec::new(alloc);
    for class in places.classes() {
        table.push(interfaces_of(alloc, places, class)?)?;
    }
    Ok(table)
}

// For each class the places right above it.
fn all_direct(alloc: Global, places: &Places) -> Result<Vec<Vec<usize>>, AllocError>
    ensures many { IfOk result (λ v. length places.now ≡ length v.items) }
    ensures listed { IfOk result (λ v. AreListed places.now names_above (map (λ e. e.items) v.items)) }
{
    let mut table = Vec::new(alloc);
    for class in places.classes() {
        table.push(direct_of(alloc, places, class)?)?;
    }
    Ok(table)
}

// The places of a class and those above it by superclasses, the nearest first.
fn lineage_of<'a>(
    alloc: Global,
    places: &Places<'a>,
    name: &'a [u8],
) -> Result<Vec<usize>, AllocError>
    ensures { IfOk result (λ v. classes_at places.now v.items ≡ lineage_of_name places.now name.now) }
{
    let mut list = Vec::new(alloc);
    let mut place = places.place_of(name);
    let count = places.len();
    for _step in 0..count {
        let Some(at) = place else {
            return Ok(list);
        };
        list.push(at)?;
        place = places.above(place);
    }
    Ok(list)
}

// For each class the places of it and those above it by superclasses.
fn all_lineages(alloc: Global, places: &Places) -> Result<Vec<Vec<usize>>, AllocError>
    ensures { IfOk result (λ v. AreNamedWays places.now (lineage_of_name places.now) (map (λ e. e.items) v.items)) }
{
    let mut table = Vec::new(alloc);
    for class in places.classes() {
        table.push(lineage_of(alloc, places, own_name(class))?)?;
    }
    Ok(table)
}

// For each list of a table what stands in another at the places in it.
fn all_joined(
    alloc: Global,
    table: &[Vec<usize>],
    lists: &[Vec<usize>],
) -> Result<Vec<Vec<usize>>, AllocError>
    ensures many { IfOk result (λ v. length v.items ≡ length lists.now) }
    ensures are { IfOk result (λ v. (p : ℕ) → FindSame (entry_at (map (λ e. e.items) v.items) p) (flat_map (entry_at (map (λ e. e.items) table.now)) (entry_at (map (λ e. e.items) lists.now) p))) }
{
    let mut next = Vec::new(alloc);
    for list in lists {
        next.push(joined(alloc, table, list.as_slice())?)?;
    }
    Ok(next)
}

// Each list of a table, and behind it that of another.
fn all_behind(
    alloc: Global,
    first: &[Vec<usize>],
    others: &[Vec<usize>],
) -> Result<Vec<Vec<usize>>, AllocError>
    requires { length others.now ≡ length first.now }
    ensures { IfOk result (λ v. (p : ℕ) → FindSame (entry_at (map (λ e. e.items) v.items) p) (entry_at (map (λ e. e.items) first.now) p ++ entry_at (map (λ e. e.items) others.now) p)) }
{
    let mut next = Vec::new(alloc);
    for (place, list) in first.iter().enumerate() {
        let mut both = Vec::new(alloc);
        both.extend_from_slice(list.as_slice())?;
        both.extend_from_slice(others[place].as_slice())?;
        next.push(both)?;
    }
    Ok(next)
}

/// For each class where a method is sought, by tables of what stands above each and of its superclasses.
fn all_method_ways(
    alloc: Global,
    places: &Places,
    ancestries: &[Vec<usize>],
    lineages: &[Vec<usize>],
) -> Result<Vec<Vec<usize>>, AllocError>
    requires reached { AreReached places.now (length places.now) (map (λ e. e.items) ancestries.now) }
    requires supers { AreNamedWays places.now (lineage_of_name places.now) (map (λ e. e.items) lineages.now) }
    ensures { IfOk result (λ v. AreNamedWays places.now (method_way_of_name places.now) (map (λ e. e.items) v.items)) }
{
    let interfaces = all_interfaces(alloc, places)?;
    let listed = all_joined(alloc, interfaces.as_slice(), lineages)?;
    let above_listed = all_joined(alloc, ancestries, listed.as_slice())?;
    all_behind(alloc, lineages, above_listed.as_slice())
}

/// Classes, and for each of them the places of what stands above it.
pub struct Ways<'a> {
    places: Places<'a>,
    ancestries: Vec<Vec<usize>>,
    aboves: Vec<Vec<usize>>,
    lineages: Vec<Vec<usize>>,
    method_ways: Vec<Vec<usize>>,
}

impl Drop for Ways<'_> {
    fn drop(self) {
        let Self {
            places: _,
            ancestries: _,
            aboves: _,
            lineages: _,
            method_ways: _,
        } = self;
    }
}

impl<'a> Model for Ways<'a> {
    ghost use Rattle.std.specs.Prelude.{List, map};
    ghost use Rattle.jmodel.specs.format.ClassFile.{ClassFile as ClassForm};
    ghost use Rattle.resolution.specs.Ways.{HasWays};

    ghost Value = { List ClassForm };

    ghost view = { λ w. w.places };

    ghost invariant = { λ w. HasWays w.places (map (λ e. e.items) w.ancestries.items) (map (λ e. e.items) w.aboves.items) (map (λ e. e.items) w.lineages.items) (map (λ e. e.items) w.method_ways.items) };
}

impl<'a> Ways<'a> {
    /// Looks up what stands above each of classes: each place at most once in a list. Goes over the classes as often as there are some.
    pub fn new(alloc: Global, classes: &'a [&'a ClassFile]) -> Result<Self, NoMemory>
        ensures { IfOk result (λ w. w ≡ map (λ c. c.now) classes.now) }
    {
        let places = Places::new(alloc, classes)?;
        let direct = all_direct(alloc, &places)?;
        let ancestries = reached(alloc, direct.as_slice())?;
        let aboves = all_joined(alloc, ancestries.as_slice(), direct.as_slice())?;
        let lineages = all_lineages(alloc, &places)?;
        let method_ways = all_method_ways(
            alloc,
            &places,
            ancestries.as_slice(),
            lineages.as_slice(),
        )?;
        Ok(Ways {
            places,
            ancestries,
            aboves,
            lineages,
            method_ways,
        })
    }

    /// The classes with their places.
    pub fn places(&self) -> &Places<'a>
        ensures { result.now ≡ self.now }
    {
        &self.places
    }

    // What stands in a table for the first class of a name.
    fn entry<'s>(&self, table: &'s [Vec<usize>], name: &'a [u8]) -> &'s [usize]
        ensures { result.now ≡ entry_of (map (λ e. e.items) table.now) (place_of self.now name.now) }
    {
        let Some(place) = self.places.place_of(name) else {
            return &[];
        };
        match table.get(place) {
            Some(entry) => entry.as_slice(),
            None => &[],
        }
    }

    /// The class of a name, and all that stands above it: from each class its interfaces and then its superclass, and on from each.
    pub fn ancestry(&self, name: &'a [u8]) -> &[usize]
        ensures { IsWay self.now result.now (ancestry_of_name self.now name.now) }
    {
        self.entry(self.ancestries.as_slice(), name)
    }

    /// The class of a name and those above it by superclasses, the nearest first.
    pub fn lineage(&self, name: &'a [u8]) -> &[usize]
        ensures { IsWay self.now result.now (lineage_of_name self.now name.now) }
    {
        self.entry(self.lineages.as_slice(), name)
    }

    /// Where a method is sought: in the class of a name and its superclasses, then in the interfaces of each of these, with what is above them.
    pub fn method_way(&self, name: &'a [u8]) -> &[usize]
        ensures { IsWay self.now result.now (method_way_of_name self.now name.now) }
    {
        self.entry(self.method_ways.as_slice(), name)
    }

    // What stands above the class at a place, which is this one.
    fn above(&self, place: usize, class: &ClassFile) -> &[usize]
        requires { slice_get self.now place ≡ Some class.now }
        ensures { IsWay self.now result.now (above_class self.now class.now) }
    {
        match self.aboves.get(place) {
            Some(entry) => entry.as_slice(),
            None => &[],
        }
    }

    // Whether a class of this name stands at a place.
    fn has_name(&self, place: usize, name: &[u8]) -> bool
        ensures { result ≡ list_any (λ d. bytes_eq (name_of_class d) name.now) (some_class (slice_get self.now place)) }
    {
        match self.places.class_at(Some(place)) {
            Some(class) => equal(own_name(class), name),
            None => false,
        }
    }

    // Whether a class of this name stands at one of some places.
    fn any_named(&self, way: &[usize], name: &[u8]) -> bool
        ensures { result ≡ list_any (λ p. list_any (λ d. bytes_eq (name_of_class d) name.now) (some_class (slice_get self.now p))) way.now }
    {
        for place in way {
            if self.has_name(*place, name) {
                return true;
            }
        }
        false
    }

    /// Whether a class of a name stands at another or above it, by superclasses.
    pub fn is_in_lineage(&self, class: &'a [u8], name: &[u8]) -> bool
        ensures { result ≡ list_any (λ d. bytes_eq (name_of_class d) name.now) (lineage_of_name self.now class.now) }
    {
        self.any_named(self.lineage(class), name)
    }

    /// Whether the class at a place, which is this one, is above itself.
    pub fn is_above_itself(&self, place: usize, class: &ClassFile) -> bool
        requires { slice_get self.now place ≡ Some class.now }
        ensures { result ≡ above_itself self.now class.now }
    {
        self.any_named(self.above(place, class), own_name(class))
    }
}
