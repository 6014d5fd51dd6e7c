//! What is kept of whole passes.
ghost use Rattle.std.specs.Prelude.{◌≡◌, ◌==◌, ◌<◌, ◌++◌, List, [], ◌∷◌, true, if◌then◌else◌, slice_index_or, None};
ghost use Rattle.packet_forms.specs.Crc.{crc_of};
ghost use Rattle.cs_slices.specs.Happenings.{Slice, Happening, slices_since};
ghost use Rattle.cs_slices.specs.Happenings.Happening.{Read, Renewed};
ghost use Rattle.cs_slices.specs.Orders.{table_of};
ghost use Rattle.cs_slices.specs.Passes.{pass_bytes, differs_behind};
ghost use Rattle.cs_slices.specs.State.{TallyStands};

use crate::switches::PLACES;

/// The baselines of all places, the miscompares of both tables, and the number of whole passes.
#[derive(Clone, Copy, Debug, PartialEq, Eq)]
pub(crate) struct Tally {
    baselines: [Option<u16>; PLACES],
    eeprom: u16,
    memory: u16,
    passes: u32,
}

impl Tally {
    /// Before the first pass.
    pub(crate) fn start() -> Tally
        ensures { TallyStands [] result }
    {
        Tally {
            baselines: [None; PLACES],
            eeprom: 0,
            memory: 0,
            passes: 0,
        }
    }

    /// Notes the check of a whole pass, and tells whether it differs from the baseline: the first one is the baseline.
    pub(crate) fn judge(&mut self, place: u8, check: u16) -> bool
        requires { place < 32 }
        ensures stands { (happened : List Happening) (s : Slice) → TallyStands happened self.old
            → s.place ≡ place → s.ends ≡ true
            → check ≡ crc_of 0 (pass_bytes place (slices_since (table_of place) happened ++ s ∷ []))
            → TallyStands (happened ++ Read s ∷ []) self.new }
        ensures found { (happened : List Happening) (s : Slice) → TallyStands happened self.old
            → s.place ≡ place → s.ends ≡ true
            → check ≡ crc_of 0 (pass_bytes place (slices_since (table_of place) happened ++ s ∷ []))
            → result ≡ differs_behind happened s }
    {
        self.passes = self.passes.wrapping_add(1);
        let Some(base) = self.baselines[place as usize] else {
            self.baselines[place as usize] = Some(check);
            return false;
        };
        if base == check {
            return false;
        }
        if place < 16 {
            self.eeprom = self.eeprom.wrapping_add(1);
        } else {
            self.memory = self.memory.wrapping_add(1);
        }
        true
    }

    /// Forgets the baselines of a table.
    pub(crate) fn renew(&mut self, table: u16)
        ensures { (happened : List Happening) → TallyStands happened self.old
            → TallyStands (happened ++ Renewed table ∷ []) self.new }
    {
        let mut baselines = [None; PLACES];
        for place in 0..PLACES {
            baselines[place] = kept(self.baselines[place], table, place as u8);
        }
        self.baselines = baselines;
    }

    /// The baseline of a place.
    pub(crate) fn baseline(&self, place: u8) -> Option<u16>
        requires { place < 32 }
        ensures { result ≡ slice_index_or self.now.baselines place None }
    {
        self.baselines[place as usize]
    }

    /// The miscompares of the EEPROM table.
    pub(crate) fn eeprom(&self) -> u16
        ensures { result ≡ self.now.eeprom }
    {
        self.eeprom
    }

    /// The miscompares of the memory table.
    pub(crate) fn memory(&self) -> u16
        ensures { result ≡ self.now.memory }
    {
        self.memory
    }

    /// The number of whole passes.
    pub(crate) fn passes(&self) -> u32
        ensures { result ≡ self.now.passes }
    {
        self.passes
    }
}

/// The baseline of a place once a table became active: none of that table's stays.
fn kept(base: Option<u16>, table: u16, place: u8) -> Option<u16>
    requires { place < 32 }
    ensures { result ≡ (if table == table_of place then None else base) }
{
    if table == u16::from(place / 16 + 1) {
        return None;
    }
    base
}
