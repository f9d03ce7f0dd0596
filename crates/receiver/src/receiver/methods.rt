ghost use Rattle.receiver.specs.Models.{Making, Heard, First, Fed};

use super::Receiver;
use crate::ear::Gatherer;
use checks::Check;
use codes::LineCode;
use frames::{Refused, Report, Settings};

impl<L: LineCode, K: Check + Drop> Receiver<L, K> {
    pub fn new(settings: Settings, line: L) -> Result<Receiver<L, K>, Refused<L>>
        ensures { Making K.Check.passes K.Check.good K.Check.width settings line result }
    {
        let line = settings.allow::<K, L>(line)?;
        Ok(Receiver {
            settings,
            line,
            ear: Gatherer::new(),
        })
    }

    // Hears a stretch up to the octet that raises a report, else all of it, and answers how many octets were used and the
    // report. The information of a frame that is handed over stands at the front of `delivery`.
    pub fn feed(&mut self, stretch: &[u8], delivery: &mut [u8]) -> (usize, Option<Report<usize>>)
        ensures { Fed L.LineCode.back K.Check.passes K.Check.good self.old stretch.now delivery.old self.new delivery.new result.0 result.1 }
    {
        match self.first_report(stretch, delivery) {
            Some((used, report)) => (used, Some(report)),
            None => (stretch.len(), None),
        }
    }

    // The first report that a stretch raises, and how many octets were used for it; none beyond has passed the line code.
    fn first_report(
        &mut self,
        stretch: &[u8],
        delivery: &mut [u8],
    ) -> Option<(usize, Report<usize>)>
        ensures { First L.LineCode.back K.Check.passes K.Check.good self.old stretch.now delivery.old self.new delivery.new result }
    {
        for (i, heard) in stretch.iter().enumerate() {
            if let Some(report) = self.hear(*heard, delivery) {
                return Some((i + 1, report));
            }
        }
        None
    }

    // One octet of the line.
    fn hear(&mut self, heard: u8, delivery: &mut [u8]) -> Option<Report<usize>>
        ensures { Heard L.LineCode.back K.Check.passes K.Check.good self.old heard delivery.old self.new delivery.new result }
    {
        let octet = self.line.receive(heard);
        self.ear.hear(&self.settings, octet, delivery)
    }
}
