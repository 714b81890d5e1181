//! The first three lines of a sheet: the title, the settings and the number of orders.
ghost use Rattle.std.specs.Prelude.{◌<◌};
ghost use Rattle.sheet.specs.Form.{title_words, settings_words, orders_words, SmallSettings};
ghost use Rattle.sheet.specs.Steps.{Reads, ReadsCount, ReadsHead};

use crate::cursor::Cursor;
use crate::fault::SheetFault;
use crate::number::count_in;
use crate::read::Reading;
use settings::given::Settings;
use settings::limits::NUMBER_MAX;

impl<'a> Cursor<'a> {
    pub(crate) fn head(&mut self, places: usize) -> Result<Reading, SheetFault<'a>>
        ensures { ReadsHead places self.old self.new result }
    {
        self.title()?;
        let settings = self.settings()?;
        let count = self.count(places)?;
        Ok(Reading { settings, count })
    }

    fn title(&mut self) -> Result<(), SheetFault<'a>>
        ensures { Reads (λ _. Unit {0}) (λ _. title_words) self.old self.new result }
    {
        self.fixed(b"settings", b' ')?;
        self.fixed(b"5", b'\n')
    }

    // Not inlined: a sheet has its settings once, and in one function with the lines of its orders the loops over words
    // would keep their counts in memory.
    #[inline(never)]
    fn settings(&mut self) -> Result<Settings, SheetFault<'a>>
        ensures { Reads SmallSettings settings_words self.old self.new result }
    {
        Ok(Settings {
            replicas: self.number(NUMBER_MAX, b' ')?,
            tolerated: self.number(NUMBER_MAX, b' ')?,
            groups: self.number(NUMBER_MAX, b' ')?,
            readers: self.number(NUMBER_MAX, b' ')?,
            initial: self.value(b'\n')?,
        })
    }

    // `orders` and their number.
    fn count(&mut self, places: usize) -> Result<usize, SheetFault<'a>>
        ensures { ReadsCount orders_words places self.old self.new result }
    {
        self.fixed(b"orders", b' ')?;
        self.field(|word, line| count_in(word, places, line), b'\n')
    }
}
