//! Opening a station, and the calls of the seats. Each answers, and leaves in the channel area, what the
//! definition says; a refused call leaves everything as it was.
ghost use Rattle.std.specs.Prelude.{◌≡◌, true, length, map};
ghost use Rattle.sheet.specs.Sheet.{view};
ghost use Rattle.machine.specs.Areas.{SameLoans, LeftAlone};
ghost use Rattle.station.specs.Calls.{answer, after, opened, first_refused, channel_questions, run_questions};
ghost use Rattle.station.specs.Calls.{post as posting, read as reading};
ghost use Rattle.station.specs.Answered.{verdict, passed, opening_verdict, posted, «read_out», ran, run_over};
ghost use Rattle.station.specs.Stations.{sheet_of, area_of};
ghost use Rattle.station.specs.Histories.{ContractLine};
ghost use Rattle.station.specs.Promise.{Promise};

use super::question::Question;
use super::state::Station;
use admission::Admitted;
use evaluator::{Report, evaluate, is_lawful_fuel};
use machine::WorkAreas;
use number::Number;
use sheet::Flag;

impl<'s, 'c, K: Number> Station<'s, 'c, K> {
    /// Asks what an opening is asked: question 41.
    pub fn check(sheet: &Admitted, channels: &[K]) -> Result<(), Question>
        ensures { result ≡ opening_verdict (view sheet.now.shaped.table.rows.now) (length channels.now) }
    {
        if channels.len() < sheet.shaped.table.sites {
            return Err(Question::ChannelArea);
        }
        Ok(())
    }

    /// The station over an admitted sheet and a channel area, with every channel at 0. The check must
    /// have said yes. From here on no party's entry sways another's figure unless the policy pairs the
    /// two, and no run is stuck: that is what the contract line says of all histories of calls, of all
    /// admitted sheets and so of this one.
    pub fn open(sheet: Admitted<'s>, channels: &'c mut [K]) -> Station<'s, 'c, K>
        requires { passed (opening_verdict (view sheet.shaped.table.rows.now) (length channels.old)) ≡ true }
        ensures sheet { result.sheet.shaped.table ≡ sheet.entry.shaped.table }
        ensures lender { result.channels.ghost_name ≡ channels.entry.ghost_name }
        ensures area { area_of K.Number.value result ≡ opened (view sheet.entry.shaped.table.rows.now) K.Number.kind (map K.Number.value channels.old) }
        ensures line { ContractLine K.Number.kind }
        ensures promise { Promise K.Number.kind (view sheet.entry.shaped.table.rows.now) }
    {
        let sites = sheet.shaped.table.sites;
        channels[0..sites].fill_with(|| K::from_whole(0));
        Station { sheet, channels }
    }

    // The questions 41 to 43 of a seat that posts to a channel or reads it.
    fn ask_channel(&self, seat: usize, channel: usize) -> Result<(), Question>
        ensures { result ≡ verdict (first_refused (channel_questions (sheet_of self.now) (length self.now.channels.now) seat channel)) }
    {
        let table = &self.sheet.shaped.table;
        let site = table.site_at(channel);
        if channel >= table.sites || site.flag != Flag::Channel {
            return Err(Question::Target);
        }
        if seat != site.label {
            return Err(Question::Seat);
        }
        Ok(())
    }

    /// Sets a channel of the seat's to a number.
    pub fn post(&mut self, seat: usize, channel: usize, number: K) -> Result<(), Question>
        ensures lender { self.new.channels.ghost_name ≡ self.old.channels.ghost_name }
        ensures sheet { self.new.sheet.shaped.table ≡ self.old.sheet.shaped.table }
        ensures answer { posted result ≡ answer (sheet_of self.old) K.Number.kind (posting seat channel (K.Number.value number)) (area_of K.Number.value self.old) }
        ensures area { area_of K.Number.value self.new ≡ after (sheet_of self.old) K.Number.kind (posting seat channel (K.Number.value number)) (area_of K.Number.value self.old) }
    {
        self.ask_channel(seat, channel)?;
        self.channels[channel] = number;
        Ok(())
    }

    /// Tells what a channel of the seat's holds.
    pub fn read(&self, seat: usize, channel: usize) -> Result<K, Question>
        ensures answer { read_out K.Number.value result ≡ answer (sheet_of self.now) K.Number.kind (reading seat channel) (area_of K.Number.value self.now) }
        ensures area { after (sheet_of self.now) K.Number.kind (reading seat channel) (area_of K.Number.value self.now) ≡ area_of K.Number.value self.now }
    {
        self.ask_channel(seat, channel)?;
        let channels: &[K] = self.channels;
        Ok(channels[channel])
    }

    // The questions 41 to 45 of a seat that would run an entry with some fuel, over these work areas.
    fn ask_run(
        &self,
        seat: usize,
        entry: usize,
        fuel: usize,
        areas: &WorkAreas<K>,
    ) -> Result<(), Question>
        ensures { result ≡ verdict (first_refused (run_questions (sheet_of self.now) (length self.now.channels.now) seat entry fuel (length areas.now.pending.now) (length areas.now.bound.now) (length areas.now.held.now))) }
    {
        let table = &self.sheet.shaped.table;
        if entry >= table.entries {
            return Err(Question::Target);
        }
        if seat != table.entry_at(entry).label {
            return Err(Question::Seat);
        }
        if !is_lawful_fuel(fuel) {
            return Err(Question::Fuel);
        }
        if !areas.are_enough() {
            return Err(Question::WorkAreas);
        }
        Ok(())
    }

    /// Runs an entry of the seat's over copies of the channels, which are written back only where the
    /// run is done with a number. No answer depends on what the work areas held before, so none depends
    /// on what they hold after.
    pub fn run(
        &mut self,
        seat: usize,
        entry: usize,
        fuel: usize,
        areas: &mut WorkAreas<K>,
    ) -> Result<Report<K>, Question>
        ensures lender { self.new.channels.ghost_name ≡ self.old.channels.ghost_name }
        ensures sheet { self.new.sheet.shaped.table ≡ self.old.sheet.shaped.table }
        ensures answer { ran K.Number.value result ≡ answer (sheet_of self.old) K.Number.kind (run_over seat entry fuel areas.old) (area_of K.Number.value self.old) }
        ensures area { area_of K.Number.value self.new ≡ after (sheet_of self.old) K.Number.kind (run_over seat entry fuel areas.old) (area_of K.Number.value self.old) }
        ensures areas_left { LeftAlone result areas.old areas.new }
        ensures loans { SameLoans areas.old areas.new }
    {
        self.ask_run(seat, entry, fuel, areas)?;
        let sheet = &self.sheet;
        let channels = &mut *self.channels;
        let numbers = &mut channels[0..sheet.shaped.table.sites];
        Ok(evaluate(&sheet.shaped, numbers, areas, entry, fuel))
    }
}
