// The scheme of a book, by value, and its maximal objects. Functions over slices do the work: the dependencies as two
// lists of sides, the objects as the list of their sets. The last two functions take a whole scheme.
#![tactic(auto)]

ghost use Rattle.std.specs.Prelude.{◌≡◌, false, not, ◌≤◌, ◌<◌, IfSome, length, take};
ghost use Rattle.sets.specs.Sets.{within, ◌∩◌, OBJECTS};
ghost use Rattle.reduction.specs.Kept.{goes, keeps, maximal, acyclic};
ghost use Rattle.reduction.specs.Packed.{packed};
ghost use Rattle.scheme.specs.Dependencies.{pass, closure};
ghost use Rattle.scheme.specs.Growing.{family_of, attributes_of, round, grown};
ghost use Rattle.scheme.specs.MaximalObjects.{all_grown, computed, is_one, removing, adding, both_kinds};
ghost use Rattle.scheme.specs.MaximalObjects.{some_cyclic};
ghost use Rattle.scheme.specs.OfScheme.{stated, listed, sets_of, HasRoom, computed_of, counting_of};
ghost use Rattle.scheme.specs.OfScheme.{maximal_list_of, MAXIMALS, NotJoined};

use reduction::SetList;
use sets::{ATTRIBUTES, AttributeSet, Mask, OBJECTS, ObjectSet};

// What the records of kinds 5, 6 and 14 say of maximal objects: those declared and those to be removed, each array
// beside its count, and whether only declared ones count. Places behind the counts are 0.
#[derive(Clone, Copy)]
pub struct MaximalRecords {
    pub declared: [ObjectSet; 8],
    pub declarations: usize,
    pub removed: [ObjectSet; 8],
    pub removals: usize,
    pub only: bool,
}

// The comparison table of a book: its masks, and how many records of kind 13 gave one. Where none did, the masks are
// those of the built-in table.
#[derive(Clone, Copy)]
pub struct TableOfMasks {
    pub masks: [u8; 16],
    pub given: usize,
}

// What a book declares: the value kind of each attribute, the set of each object, the dependencies, each array beside
// its count or the set of what is declared; what it says of maximal objects; its comparison table. Places that nothing
// was declared for are 0.
#[derive(Clone, Copy)]
pub struct Scheme {
    pub kinds: [u8; ATTRIBUTES as usize],
    pub attributes: AttributeSet,
    pub sets: [AttributeSet; OBJECTS as usize],
    pub objects: ObjectSet,
    pub left: [AttributeSet; 64],
    pub right: [AttributeSet; 64],
    pub dependencies: usize,
    pub maximal: MaximalRecords,
    pub table: TableOfMasks,
}

// How many maximal objects a scheme can have: one computed for each object, and those declared.
pub const MAXIMALS: usize = OBJECTS as usize + 8;

// The first n of a list, or the whole list where it has fewer: a list in an array, without the places behind it.
pub fn first<T>(list: &[T], n: usize) -> &[T]
    ensures { result.now ≡ take n list.now }
{
    if n < list.len() { &list[..n] } else { list }
}

// The dependencies of a book: the left sides, and beside each its right side. A side without another is no dependency.
#[derive(Clone, Copy)]
pub struct Dependencies<'a> {
    pub left: &'a [AttributeSet],
    pub right: &'a [AttributeSet],
}

// The objects of a book: the set of object k at place k, and which of them are declared.
#[derive(Clone, Copy)]
pub struct Objects<'a> {
    pub sets: &'a [AttributeSet],
    pub declared: ObjectSet,
    pub ghost all_there: { OBJECTS ≤ length sets.now },
}

// One pass: each dependency in turn whose left side is there adds its right side.
fn pass(dependencies: Dependencies<'_>, attributes: AttributeSet) -> AttributeSet
    ensures { result ≡ pass (stated dependencies.entry) attributes }
{
    let Dependencies { left, right } = dependencies;
    let mut all = attributes;
    for i in 0..left.len().min(right.len()) {
        if left[i].within(all) {
            all = all.union(right[i]);
        }
    }
    all
}

// The attributes that are determined by some: passes until nothing is added.
pub fn closure(dependencies: Dependencies<'_>, attributes: AttributeSet) -> AttributeSet
    ensures { result ≡ closure (stated dependencies.entry) attributes }
{
    let mut all = attributes;
    let mut next = pass(dependencies, all);
    while next != all {
        all = next;
        next = pass(dependencies, all);
    }
    all
}

// The sets of some objects, ascending: the family of a maximal object.
pub fn family_of(sets: &[AttributeSet], objects: ObjectSet) -> SetList
    requires { OBJECTS ≤ length sets.now }
    ensures { result ≡ packed (family_of sets.now objects) }
{
    let mut out = [0u32; reduction::PLACES];
    let mut count: usize = 0;
    for k in 0..OBJECTS {
        if objects.has(k) {
            out[count] = sets[k as usize];
            count += 1;
        }
    }
    SetList { sets: out, count }
}

// The attributes of some objects.
pub fn attributes_of(sets: &[AttributeSet], objects: ObjectSet) -> AttributeSet
    requires { OBJECTS ≤ length sets.now }
    ensures { result ≡ attributes_of sets.now objects }
{
    let mut all: AttributeSet = 0;
    for k in 0..OBJECTS {
        if objects.has(k) {
            all = all.union(sets[k as usize]);
        }
    }
    all
}

// Whether an object with set s has attributes which are determined by those it shares with the attributes held. One that
// was asked with the attributes `before`, and shares no more with those held now, did not join and does not.
fn is_determined(
    dependencies: Dependencies<'_>,
    s: AttributeSet,
    asked: Option<AttributeSet>,
    attributes: AttributeSet,
) -> bool
    requires { IfSome asked (λ before. within s (closure (stated dependencies) (s ∩ before)) ≡ false) }
    ensures { result ≡ within s (closure (stated dependencies.entry) (s ∩ attributes)) }
{
    let shared = s.intersection(attributes);
    if let Some(before) = asked {
        if s.intersection(before) == shared {
            return false;
        }
    }
    s.within(closure(dependencies, shared))
}

// One round: the objects that are held or can be held. The attributes held are found once. Where the objects were asked
// in the round before, `asked` has the attributes held then.
fn round(
    dependencies: Dependencies<'_>,
    objects: Objects<'_>,
    held: ObjectSet,
    asked: Option<AttributeSet>,
) -> ObjectSet
    requires { IfSome asked (NotJoined (stated dependencies) objects.sets.now objects.declared held) }
    ensures { result ≡ round (stated dependencies.entry) objects.entry.sets.now objects.entry.declared held }
{
    let attributes = attributes_of(objects.sets, held);
    let mut next: ObjectSet = 0;
    for k in 0..OBJECTS {
        if held.has(k) {
            next = next.insert(k);
        } else if objects.declared.has(k) {
            if is_determined(dependencies, objects.sets[k as usize], asked, attributes) {
                next = next.insert(k);
            }
        }
    }
    next
}

// The set grown from a start: rounds until no object joins.
pub fn grow(dependencies: Dependencies<'_>, objects: Objects<'_>, start: u32) -> ObjectSet
    requires { start < OBJECTS }
    ensures { result ≡ grown (stated dependencies.entry) objects.entry.sets.now objects.entry.declared start }
{
    let mut held = ObjectSet::single(start);
    let mut next = round(dependencies, objects, held, None);
    let mut before = attributes_of(objects.sets, held);
    while next != held {
        held = next;
        next = round(dependencies, objects, held, Some(before));
        before = attributes_of(objects.sets, held);
    }
    held
}

// A list of sets of objects, as many as a scheme can have maximal objects; the places behind them are 0.
#[derive(Clone, Copy)]
pub struct ObjectList {
    pub sets: [ObjectSet; MAXIMALS],
    pub count: usize,
}

// The sets grown from each object, starts ascending.
fn grown_sets(dependencies: Dependencies<'_>, objects: Objects<'_>) -> ObjectList
    ensures { result
        ≡ listed (all_grown (stated dependencies.entry) objects.entry.sets.now objects.entry.declared) }
{
    let mut out: [ObjectSet; MAXIMALS] = [0; MAXIMALS];
    let mut count: usize = 0;
    for k in 0..OBJECTS {
        if objects.declared.has(k) {
            out[count] = grow(dependencies, objects, k);
            count += 1;
        }
    }
    ObjectList { sets: out, count }
}

// Whether set i of a list goes for another one: an earlier one that contains it or one that has more.
fn goes_for_another(list: &[ObjectSet], i: usize) -> bool
    requires { i < length list.now }
    ensures { result ≡ goes list.now i (length list.now) }
{
    let s = list[i];
    for (j, t) in list.iter().enumerate() {
        if s.within(*t) {
            if j < i {
                return true;
            }
            if !t.within(s) {
                return true;
            }
        }
    }
    false
}

// Whether set i of a list is kept: it has an object and goes for no other set.
fn is_kept(list: &[ObjectSet], i: usize) -> bool
    requires { i < length list.now }
    ensures { result ≡ keeps list.now i }
{
    if list[i].is_empty() {
        return false;
    }
    !goes_for_another(list, i)
}

// The sets of a list that have an object and lie in no other, in their order, the first of equals.
fn maximal_sets(grown: &[ObjectSet]) -> ObjectList
    requires { length grown.now ≤ MAXIMALS }
    ensures { result ≡ listed (maximal grown.now) }
{
    let mut out: [ObjectSet; MAXIMALS] = [0; MAXIMALS];
    let mut count: usize = 0;
    for (i, s) in grown.iter().enumerate() {
        if is_kept(grown, i) {
            out[count] = *s;
            count += 1;
        }
    }
    ObjectList { sets: out, count }
}

// The grown sets without those properly inside another and without repeats.
fn computed_sets(dependencies: Dependencies<'_>, objects: Objects<'_>) -> ObjectList
    ensures { result
        ≡ listed (computed (stated dependencies.entry) objects.entry.sets.now objects.entry.declared) }
{
    let all = grown_sets(dependencies, objects);
    maximal_sets(first(&all.sets, all.count))
}

// Whether s is one of the list.
fn is_one(list: &[ObjectSet], s: ObjectSet) -> bool
    ensures { result ≡ is_one s list.now }
{
    list.contains(&s)
}

// How many of some computed sets count: none where only declared ones do.
fn counting(only: bool, count: usize) -> usize
    ensures { result ≡ counting_of only count }
{
    if only { 0 } else { count }
}

// Whether sets are to be removed and only declared ones count.
fn both_kinds(only: bool, removals: usize) -> bool
    ensures { result ≡ both_kinds only removals }
{
    only && removals > 0
}

// Whether the objects of m make a family with a cycle.
fn is_cyclic(sets: &[AttributeSet], m: ObjectSet) -> bool
    requires { OBJECTS ≤ length sets.now }
    ensures { result ≡ not (acyclic (family_of sets.now m)) }
{
    let family = family_of(sets, m);
    !reduction::is_acyclic(first(&family.sets, family.count))
}

// Whether some one of the list has a cycle.
fn some_cyclic(sets: &[AttributeSet], list: &[ObjectSet]) -> bool
    requires { OBJECTS ≤ length sets.now }
    ensures { result ≡ some_cyclic sets.now list.now }
{
    list.iter().any(|m| is_cyclic(sets, *m))
}

// The list without the sets that are named.
fn without_removed(list: &[ObjectSet], removed: &[ObjectSet]) -> ObjectList
    requires { length list.now ≤ OBJECTS }
    ensures { result ≡ listed (removing list.now removed.now) }
{
    let mut out: [ObjectSet; MAXIMALS] = [0; MAXIMALS];
    let mut count: usize = 0;
    for m in list {
        if !is_one(removed, *m) {
            out[count] = *m;
            count += 1;
        }
    }
    ObjectList { sets: out, count }
}

// The list with each declared set at its end unless already there.
fn with_declared(list: ObjectList, declared: &[ObjectSet]) -> ObjectList
    requires { HasRoom list (length declared.now) }
    ensures { result ≡ listed (adding (sets_of list) declared.now) }
{
    let mut out = list.sets;
    let mut count = list.count;
    for m in declared {
        if !is_one(&out[..count], *m) {
            out[count] = *m;
            count += 1;
        }
    }
    ObjectList { sets: out, count }
}

// The computed maximal objects of a scheme.
pub fn computed(s: Scheme) -> ObjectList
    ensures { result ≡ listed (computed_of s) }
{
    let left = first(&s.left, s.dependencies);
    let right = first(&s.right, s.dependencies);
    let objects = Objects {
        sets: &s.sets,
        declared: s.objects,
    };
    computed_sets(Dependencies { left, right }, objects)
}

// The maximal objects of a scheme with the two faults: a set to be removed where only declared ones count, and a
// maximal object with a cycle. The places behind the sets are 0.
#[derive(Clone, Copy)]
pub struct MaximalList {
    pub sets: [ObjectSet; MAXIMALS],
    pub count: usize,
    pub both: bool,
    pub cyclic: bool,
}

// The maximal objects and the faults of a scheme. All sets are grown once.
pub fn maximal_objects(s: Scheme) -> MaximalList
    ensures { result ≡ maximal_list_of s }
{
    let found = computed(s);
    let list = first(&found.sets, counting(s.maximal.only, found.count));
    let removed = first(&s.maximal.removed, s.maximal.removals);
    let rest = without_removed(list, removed);
    let both = both_kinds(s.maximal.only, s.maximal.removals);
    let all = with_declared(rest, first(&s.maximal.declared, s.maximal.declarations));
    let cyclic = some_cyclic(&s.sets, first(&all.sets, all.count));
    let sets = all.sets;
    MaximalList {
        sets,
        count: all.count,
        both,
        cyclic,
    }
}
