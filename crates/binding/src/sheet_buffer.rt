// A lent buffer whose first bytes are a sheet.
ghost use Rattle.std.specs.Prelude.{◌≤◌};
ghost use Rattle.sheet.specs.Records.{KeepsLayout};
ghost use Rattle.binding.specs.Buffer.{bytes_in};

use crate::buffer::RecordBuffer;
use sheet::Sheet;

// A buffer whose records are a sheet within its limit.
#[derive(Drop)]
pub struct SheetBuffer<'a, 'b> {
    pub records: &'a mut RecordBuffer<'b>,
    ghost sheet: { KeepsLayout (bytes_in records.now) },
    ghost within: { records.now.len ≤ records.now.limit },
}

impl<'a, 'b> SheetBuffer<'a, 'b> {
    ghost use Rattle.std.specs.Prelude.{◌≡◌, ◌≤◌, length};
    ghost use Rattle.binding.specs.Sheets.{SameSheet};

    // The sheet.
    pub fn sheet(&self) -> Sheet<'_>
        ensures { result ≡ bytes_in self.now.records.now }
    {
        Sheet::new(self.records.records())
    }

    // Another sheet in place of its own.
    pub fn replace(&mut self, sheet: &Sheet<'_>)
        requires { length sheet.now ≤ self.old.records.now.limit }
        ensures over { SameSheet self.old self.new }
        ensures bytes { bytes_in self.new.records.now ≡ sheet.now }
    {
        self.records.replace(sheet.bytes());
    }
}
