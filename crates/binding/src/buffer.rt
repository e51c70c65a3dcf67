// A lent buffer whose first bytes are records, and binding a name among them.
ghost use Rattle.std.specs.Prelude.{◌≡◌, true, ◌≤◌, length, take};
ghost use Rattle.rules.specs.Sheet.{Records, encode};
ghost use Rattle.places.specs.Mark.{ascending, begins};

use crate::{Room, source_of, text_lead};
use places::find_place;
use record_bytes::{Lead, arrange, opening_len, put_opening, shift};
use refusal::Refusal;
use sheet::Name;
use sheet::lookup::Found;

// The buffer, how many bytes of records stand at its start, and how many they may come to. At `last` the record begins that was bound last, or `last` is
// 0: names that come in order are found from there, without a walk from the start.
#[derive(Drop)]
pub struct RecordBuffer<'a> {
    pub bytes: &'a mut [u8],
    pub len: usize,
    pub limit: usize,
    pub last: usize,
    ghost fits: { len ≤ length bytes.now },
    ghost room: { limit ≤ length bytes.now },
    ghost small: { limit ≤ 65535 },
    ghost place: { (r : Records) → take len bytes.now ≡ encode r → ascending r ≡ true → begins last r ≡ true },
}

// A binding plans by `find_room`, moves bytes in its way, and writes what stands before the value's own bytes by `put_opening`. A refused one changes
// nothing.
impl<'a> RecordBuffer<'a> {
    ghost use Rattle.std.specs.Prelude.{◌≡◌, ◌≤◌, ◌<◌, List, ℕ, length, MatchResult};
    ghost use Rattle.rules.specs.Sheet.{Value, text};
    ghost use Rattle.refusal.specs.declared.Refusal.TheVariants.{Limit};
    ghost use Rattle.sheet.specs.Name.{asked};
    ghost use Rattle.sheet.specs.Find.{HasRecords, Tells};
    ghost use Rattle.binding.specs.Write.{IsSource, HasSource, IsThere};
    ghost use Rattle.binding.specs.Buffer.{bytes_in, SameBuffer, InOrder, Plans, Binds};

    // The bytes of the records.
    pub fn records(&self) -> &[u8]
        ensures { result.now ≡ bytes_in self.now }
    {
        &self.bytes[..self.len]
    }

    // May the records come to so many bytes?
    fn within(&self, n: usize) -> Result<(), Refusal>
        ensures { MatchResult result (λ _. n ≤ self.now.limit) (λ refusal. (refusal ≡ Limit) × (self.now.limit < n)) }
    {
        if self.limit < n {
            return Err(Refusal::Limit);
        }
        Ok(())
    }

    // Plans the binding of a name to a value of these many bytes, unless the records would be over their limit. Inlined, since every binding begins with
    // it: called, its plan is cleared, filled and read again in memory.
    #[inline(always)]
    fn find_room(&self, name: Name<'_>, lead: Lead, len: usize) -> Result<Room, Refusal>
        requires { InOrder self.now }
        ensures { Plans self.now (asked name.entry) lead len result }
    {
        let long = name.len();
        self.within(long)?;
        self.within(len)?;
        let head = opening_len(long, lead);
        let s = self.records();
        let place = find_place(s, self.last, name);
        let total = place.from + head + len + (s.len() - place.to);
        self.within(total)?;
        Ok(Room { place, head, total })
    }

    // Binds a name to a value with these bytes of its own. Its place is searched for from the record bound last.
    pub fn bind_value(&mut self, name: Name<'_>, lead: Lead, own: &[u8]) -> Result<(), Refusal>
        requires { InOrder self.old × HasSource lead own.now }
        ensures { (v : Value) → IsSource v lead own.now → Binds self.old (asked name.entry) v self.new result }
    {
        let p = self.find_room(name, lead, own.len())?;
        let at = p.place.from + p.head;
        // No search starts within what is moved.
        self.last = 0;
        shift(self.bytes, p.place.to, self.len, at + own.len());
        buffers::store(self.bytes, at, own);
        put_opening(self.bytes, p.place.from, name, lead);
        self.len = p.total;
        self.last = p.place.from;
        Ok(())
    }

    // Binds a name to a text. This and the two below search from the first record.
    pub fn bind_text(&mut self, name: Name<'_>, content: &[u8]) -> Result<(), Refusal>
        requires { HasRecords (bytes_in self.old) }
        ensures { Binds self.old (asked name.entry) (text content.now) self.new result }
    {
        self.last = 0;
        self.bind_value(name, text_lead(content.len()), content)
    }

    // Binds a name to a value that a lookup found in another sheet.
    pub fn bind_from(&mut self, name: Name<'_>, other: &[u8], value: Found) -> Result<(), Refusal>
        requires { HasRecords (bytes_in self.old) × IsThere other.now value }
        ensures { (v : Value) → Tells other.now v value → Binds self.old (asked name.entry) v self.new result }
    {
        let o = source_of(value);
        self.last = 0;
        self.bind_value(name, o.lead, &other[o.own.from..o.own.to])
    }

    // Binds a name to a value that a lookup found among these records.
    pub fn bind_found(&mut self, name: Name<'_>, value: Found) -> Result<(), Refusal>
        requires { HasRecords (bytes_in self.old) × IsThere (bytes_in self.old) value }
        ensures { (v : Value) → Tells (bytes_in self.old) v value → Binds self.old (asked name.entry) v self.new result }
    {
        let o = source_of(value);
        let own = o.own;
        self.last = 0;
        let p = self.find_room(name, o.lead, own.to - own.from)?;
        arrange(
            self.bytes,
            p.place.from + p.head,
            own.from,
            own.to,
            p.place.to,
            self.len,
        );
        put_opening(self.bytes, p.place.from, name, o.lead);
        self.len = p.total;
        Ok(())
    }

    // Other bytes in place of its own.
    pub fn replace(&mut self, records: &[u8])
        requires { length records.now ≤ self.old.limit }
        ensures over { SameBuffer self.old self.new }
        ensures bytes { bytes_in self.new ≡ records.now }
    {
        self.last = 0; // Its records are gone.
        buffers::store(self.bytes, 0, records);
        self.len = records.len();
    }
}
