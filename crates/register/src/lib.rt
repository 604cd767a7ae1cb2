#![tactic(auto)]

ghost use Rattle.std.specs.Prelude.{◌≡◌, ℕ, ◌+◌, ◌<◌, ◌≤◌, ◌↔◌, min, T, IsTrue, length, replicate, slice_index, slice_set};
ghost use Rattle.register.specs.Rows.{Finds, Puts, Cleared};
ghost use Rattle.register.specs.Chains.{bucket as bucketOf, Indexed, Put};

// A kind of row: it tells whether it is the same as another, and gives a hash for the index. It asks for no `==`, since a row
// may have one that leaves some of its fields out.
pub trait Row: Copy {
    ghost hash: { Self → ℕ };

    fn matches(self, other: Self) -> bool
        ensures yes { T result → self ≡ other }
        ensures not { self ≡ other → T result };

    fn hash(self) -> u32
        ensures { result ≡ hash self };
}

// The chained index of a register's rows, in memory of the caller. Lent memory of fixed size holds the chains, so a link is a
// number, one more than the place of a row, or 0 at the end of a chain.
#[derive(Drop)]
pub struct Index<'a> {
    pub heads: &'a mut [u16],
    pub next: &'a mut [u16],
}

// Rows in lent memory, the first `count` of them in use: the rows are the caller's, so the count stands beside them. Both are
// the caller's to set, and each call tests that the rows in use are there.
#[derive(Drop)]
pub struct Register<'a, R> {
    pub rows: &'a mut [R],
    pub count: u16,
}

// The bucket of a hash. A mask, since a division would cost more than the rest of a search.
fn bucket(buckets: usize, hash: u32) -> usize
    ensures value { result ≡ bucketOf buckets hash }
    ensures below { 0 < buckets → result < buckets }
{
    hash as usize & buckets.saturating_sub(1)
}

// A link, or the place that it may not pass: links only lead downwards, so that every walk ends.
fn downwards(link: u16, place: u16) -> u16
    ensures { result ≡ min link place }
{
    link.min(place)
}

impl Index<'_> {
    // Whether it has a chain to put a row into, and a link for each of so many rows.
    fn covers(&self, count: u16) -> bool
        ensures { IsTrue result ↔ ((0 < length self.now.heads.now) × (count ≤ length self.now.next.now)) }
    {
        !self.heads.is_empty() && count as usize <= self.next.len()
    }

    // Puts the row at a place, of the given hash, in front of its chain.
    fn link(&mut self, hash: u32, at: u16)
        requires some { 0 < length self.old.heads.now }
        requires room { at < length self.old.next.now }
        requires small { at < 65535 }
        ensures names { (self.new.heads.ghost_name ≡ self.old.heads.ghost_name) × (self.new.next.ghost_name ≡ self.old.next.ghost_name) }
        ensures heads { self.new.heads.now ≡ slice_set self.old.heads.now (bucketOf (length self.old.heads.now) hash) (at + 1) }
        ensures next { self.new.next.now ≡ slice_set self.old.next.now at (slice_index self.old.heads.now (bucketOf (length self.old.heads.now) hash)) }
    {
        let b = bucket(self.heads.len(), hash);
        let link = self.heads[b];
        self.next[at as usize] = link;
        self.heads[b] = at + 1;
    }

    // Leaves every chain without rows.
    fn reset(&mut self)
        ensures names { (self.new.heads.ghost_name ≡ self.old.heads.ghost_name) × (self.new.next.ghost_name ≡ self.old.next.ghost_name) }
        ensures empty { (k : ℕ) → slice_index self.new.heads.now k ≡ 0 }
        ensures heads { length self.new.heads.now ≡ length self.old.heads.now }
        ensures next { self.new.next.now ≡ self.old.next.now }
    {
        self.heads.fill(0);
    }
}

// Links rows one after another into an index without rows.
fn link_all<R: Row>(rows: &[R], index: &mut Index<'_>)
    requires few { length rows.now ≤ 65535 }
    requires next { length rows.now ≤ length index.old.next.now }
    requires some { 0 < length index.old.heads.now }
    requires empty { (k : ℕ) → slice_index index.old.heads.now k ≡ 0 }
    ensures names { (index.new.heads.ghost_name ≡ index.old.heads.ghost_name) × (index.new.next.ghost_name ≡ index.old.next.ghost_name) }
    ensures long { (length index.new.heads.now ≡ length index.old.heads.now) × (length index.new.next.now ≡ length index.old.next.now) }
    ensures indexed { Indexed R.Row.hash rows.now (length rows.now) index.new.heads.now index.new.next.now }
{
    for (at, row) in rows.iter().enumerate() {
        index.link(row.hash(), at as u16);
    }
}

// Writes a blank row into each place.
fn blank_all<R: Copy>(rows: &mut [R], blank: R)
    ensures { rows.new ≡ replicate (length rows.old) blank }
{
    for row in rows.iter_mut() {
        *row = blank;
    }
}

// Writes a blank row into each place between two.
fn clear<R: Row>(rows: &mut [R], from: u16, to: u16, blank: R)
    requires order { from ≤ to }
    ensures { Cleared rows.old from to blank rows.new }
{
    let end = rows.len().min(to as usize);
    if (from as usize) < end {
        blank_all(&mut rows[from as usize..end], blank);
    }
}

impl<'a, R: Row> Register<'a, R> {
    // How many rows may be in use, of which each has a place among the rows and in the index.
    fn room(&self, index: &Index<'_>, most: u16) -> usize
        ensures { result ≡ min most (min (length self.now.rows.now) (length index.now.next.now)) }
    {
        (most as usize).min(self.rows.len().min(index.next.len()))
    }

    // An empty register over lent rows: the first `most` of them, or all if fewer, are made blank.
    pub fn open(rows: &'a mut [R], most: u16, blank: R) -> Self
        ensures held { result.rows.ghost_name ≡ rows.entry.ghost_name }
        ensures cleared { Cleared rows.old 0 most blank result.rows.now }
        ensures none { result.count ≡ 0 }
    {
        clear(rows, 0, most, blank);
        Register { rows, count: 0 }
    }

    // Gives back the rows behind the first `count`: they are blank again.
    pub fn roll_back(&mut self, count: u16, blank: R)
        ensures held { self.new.rows.ghost_name ≡ self.old.rows.ghost_name }
        ensures cleared { count ≤ self.old.count → Cleared self.old.rows.now count self.old.count blank self.new.rows.now × (self.new.count ≡ count) }
        ensures kept { self.old.count < count → (self.new.rows.now ≡ self.old.rows.now) × (self.new.count ≡ self.old.count) }
    {
        let before = self.count;
        if before < count {
            return;
        }
        self.count = count;
        clear(self.rows, count, before, blank);
    }

    // The place of the row in use that is the same as the one given. It follows the chain of the row's bucket, so through
    // an index of these rows the end of the chain tells that the row is absent.
    fn find(&self, index: &Index<'_>, row: R) -> Option<u16>
        requires rows { self.now.count ≤ length self.now.rows.now }
        requires next { self.now.count ≤ length index.now.next.now }
        ensures { Indexed R.Row.hash self.now.rows.now self.now.count index.now.heads.now index.now.next.now → Finds self.now.rows.now self.now.count row result }
    {
        let b = bucket(index.heads.len(), row.hash());
        if b >= index.heads.len() {
            return None;
        }
        let mut link = downwards(index.heads[b], self.count);
        while link > 0 {
            let at = link - 1;
            if self.rows[at as usize].matches(row) {
                return Some(at);
            }
            link = downwards(index.next[at as usize], at);
        }
        None
    }

    // Makes the index one of the rows in use, whatever it was before.
    pub fn link_rows(&self, index: &mut Index<'_>)
        ensures names { (index.new.heads.ghost_name ≡ index.old.heads.ghost_name) × (index.new.next.ghost_name ≡ index.old.next.ghost_name) }
        ensures indexed { self.now.count ≤ length self.now.rows.now → self.now.count ≤ length index.old.next.now → 0 < length index.old.heads.now → Indexed R.Row.hash self.now.rows.now self.now.count index.new.heads.now index.new.next.now }
        ensures long { (length index.new.heads.now ≡ length index.old.heads.now) × (length index.new.next.now ≡ length index.old.next.now) }
    {
        if self.count as usize > self.rows.len() || !index.covers(self.count) {
            return;
        }
        index.reset();
        link_all(&self.rows[..self.count as usize], index);
    }

    // The place of the row: where it stands already, or behind the rows in use; none where the register, of which at most
    // `most` rows are used, has no place for it, and then nothing has changed.
    pub fn put(&mut self, index: &mut Index<'_>, most: u16, row: R) -> Option<u16>
        ensures held { self.new.rows.ghost_name ≡ self.old.rows.ghost_name }
        ensures names { (index.new.heads.ghost_name ≡ index.old.heads.ghost_name) × (index.new.next.ghost_name ≡ index.old.next.ghost_name) }
        ensures put { Indexed R.Row.hash self.old.rows.now self.old.count index.old.heads.now index.old.next.now → Put R.Row.hash most self.old.rows.now self.old.count index.old.heads.now index.old.next.now row self.new.rows.now self.new.count index.new.heads.now index.new.next.now result }
    {
        let at = self.count;
        if at as usize > self.rows.len() || !index.covers(at) {
            return None;
        }
        if let Some(earlier) = self.find(index, row) {
            return Some(earlier);
        }
        if at as usize >= self.room(index, most) {
            return None;
        }
        self.rows[at as usize] = row;
        index.link(row.hash(), at);
        self.count = at + 1;
        Some(at)
    }
}
