//! The hash index of names.
ghost use Rattle.std.specs.Prelude.{◌≡◌, ◌+◌, ◌*◌, ◌<◌, ◌++◌, ◌∷◌, [], ℕ, List, Option, None, Some, IfOk};
ghost use Rattle.std.specs.Prelude.{IfSome, length, option_map, position, slice_get, slice_set};
ghost use Rattle.std.specs.Str.{bytes_eq};
ghost use Rattle.lot_machine.specs.Commands.{is_meant_by};
ghost use Rattle.lot_machine.specs.Numbered.{option_any};
ghost use Rattle.lot_lists.specs.NodeLists.{IsFree, nodes_of};
ghost use Rattle.lot_kernel.specs.Names.{IsIndexOf, bucket_of, names_of};

use lot_lists::{Lists, Nodes};
use lot_machine::{Name, Thread};
use std::alloc::{AllocError, Global};
use std::hash::{FoldHasher, Hasher};
use std::marker::Model;

/// A name with its hash, so that one hash serves each index that the name is looked up in or added to. Contracts see
/// the name.
#[derive(Drop)]
pub(crate) struct Hashed<'a> {
    name: &'a Name,
    hash: u64,
}

impl<'a> Model for Hashed<'a> {
    ghost use Rattle.std.specs.Prelude.{◌≡◌, List, ℕ};
    ghost use Rattle.lot_kernel.specs.Names.{hash_of};

    ghost Value = { List ℕ };

    ghost view = { λ h. h.name.now };

    ghost invariant = { λ h. h.hash ≡ hash_of h.name.now };
}

impl<'a> Hashed<'a> {
    pub(crate) fn new(name: &'a Name) -> Self
        ensures { result ≡ name.now }
    {
        let mut hasher = FoldHasher::default();
        hasher.write(name.as_bytes());
        Hashed {
            name,
            hash: hasher.finish(),
        }
    }

    /// The bytes of the name.
    pub(crate) fn as_bytes(&self) -> &[u8]
        ensures { result.now ≡ self.now }
    {
        self.name.as_bytes()
    }

    /// A copy of the name.
    pub(crate) fn copied(&self) -> Name
        ensures { result ≡ self.now }
    {
        self.name.copied()
    }

    /// Whether it is this name.
    fn is(&self, name: &Name) -> bool
        ensures { result ≡ bytes_eq self.now name.now }
    {
        self.name == name
    }

    /// The name's bucket among `buckets`, or `None` if the name has no bytes.
    fn bucket_of(&self, buckets: u32) -> Option<usize>
        requires { 0 < buckets }
        ensures bucket { result ≡ bucket_of buckets self.now }
        ensures within { IfSome result (λ bucket. bucket < buckets) }
    {
        if self.name.is_none() {
            return None;
        }
        Some((self.hash % u64::from(buckets)) as usize)
    }
}

/// A hash index of a table of names, such as those of the currencies. A bucket's list holds the places whose names hash
/// to the bucket; a place without a name is in no list.
pub(crate) struct NameIndex {
    lists: Lists,
    buckets: u32,
}

impl Drop for NameIndex {
    // An explicit drop: code that drops a `NameIndex` is then proved without unfolding its parts.
    fn drop(self) {
        let Self {
            lists: _,
            buckets: _,
        } = self;
    }
}

impl Model for NameIndex {
    ghost use Rattle.std.specs.Prelude.{◌≡◌, ◌<◌, length};
    ghost use Rattle.lot_lists.specs.NodeLists.{NodeLists};

    ghost Value = { NodeLists };

    ghost view = { λ s. s.lists };

    ghost invariant = { λ s. record {
      some : 0 < s.buckets;
      lists : s.buckets ≡ length s.lists.lists;
      places : s.buckets ≡ s.lists.nodes;
    } };
}

impl NameIndex {
    /// The index of an empty table, with `places` buckets and room for as many places.
    pub(crate) fn new(alloc: Global, places: u32) -> Result<NameIndex, AllocError>
        requires { 0 < places }
        ensures empty { IfOk result (λ made. IsIndexOf made []) }
        ensures places { IfOk result (λ made. made.nodes ≡ places) }
    {
        Ok(NameIndex {
            lists: Lists::new(alloc, places as usize, places as usize)?,
            buckets: places,
        })
    }

    /// The number of bytes that `new` requests from the allocator.
    pub(crate) fn bytes(places: u32) -> u64
        ensures { result ≡ 20 * places }
    {
        Lists::bytes(places as usize, places as usize)
    }

    /// The capacity in bytes: always exactly what `new` requested.
    pub(crate) fn held(&self) -> u64
        ensures { result ≡ 20 * self.now.nodes }
    {
        self.lists.held()
    }

    /// Adds the name of the table's next place, or of a free one. It skips a name without bytes.
    pub(crate) fn add(&mut self, place: usize, name: &Hashed<'_>)
        requires place { place < self.old.nodes }
        requires free { IsFree self.old place }
        ensures added { (names : List (Option (List ℕ))) → IsIndexOf self.old names → length names ≡ place
            → IsIndexOf self.new (names ++ Some name.now ∷ []) }
        ensures again { (names : List (Option (List ℕ))) → IsIndexOf self.old names → slice_get names place ≡ Some None
            → IsIndexOf self.new (slice_set names place (Some name.now)) }
        ensures places { self.new.nodes ≡ self.old.nodes }
    {
        if let Some(bucket) = name.bucket_of(self.buckets) {
            self.lists.push_back(bucket, place);
        }
    }

    /// Removes the name of a place, if it has one.
    pub(crate) fn remove(&mut self, place: usize)
        requires { place < self.old.nodes }
        ensures removed { (names : List (Option (List ℕ))) → IsIndexOf self.old names
            → IsIndexOf self.new (slice_set names place None) }
        ensures places { self.new.nodes ≡ self.old.nodes }
    {
        if self.lists.list_of(place).is_some() {
            self.lists.remove(place);
        }
    }

    /// The places in the bucket of this name, or `None` if the name has no bytes.
    fn places(&self, name: &Hashed<'_>) -> Option<Nodes<'_>>
        ensures { result ≡ option_map (nodes_of self.now) (bucket_of (length self.now.lists) name.now) }
    {
        let bucket = name.bucket_of(self.buckets)?;
        Some(self.lists.iter(bucket))
    }
}

/// The place of the currency with this name, if there is one. No currency has a name without bytes.
pub(crate) fn currency_place(
    index: &NameIndex,
    currencies: &[Option<Name>],
    name: &Hashed<'_>,
) -> Option<usize>
    requires { IsIndexOf index.now currencies.now }
    ensures { result ≡ position (option_any (is_meant_by name.now)) currencies.now }
{
    let places = index.places(name)?;
    places
        .filter(|place| is_currency_named(currencies, *place, name))
        .min()
}

/// The place of the thread with this name, dead or not, if there is one. A name without bytes means none.
pub(crate) fn thread_place(
    index: &NameIndex,
    threads: &[Option<Thread>],
    name: &Hashed<'_>,
) -> Option<usize>
    requires { IsIndexOf index.now (names_of threads.now) }
    ensures { result ≡ position (option_any (λ t. is_meant_by name.now t.name)) threads.now }
{
    let places = index.places(name)?;
    places
        .filter(|place| is_thread_named(threads, *place, name))
        .min()
}

/// Whether the currency at this place has the name.
fn is_currency_named(currencies: &[Option<Name>], place: usize, name: &Hashed<'_>) -> bool
    ensures { result ≡ option_any (option_any (bytes_eq name.now)) (slice_get currencies.now place) }
{
    match currencies.get(place) {
        Some(Some(other)) => name.is(other),
        _ => false,
    }
}

/// Whether the thread at this place has the name.
fn is_thread_named(threads: &[Option<Thread>], place: usize, name: &Hashed<'_>) -> bool
    ensures { result ≡ option_any (option_any (λ t. bytes_eq name.now t.name)) (slice_get threads.now place) }
{
    match threads.get(place) {
        Some(Some(other)) => name.is(&other.name),
        _ => false,
    }
}
