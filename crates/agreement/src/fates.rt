// What becomes of assignments on the air.
ghost use Rattle.std.specs.Prelude.{◌≡◌};
ghost use Rattle.agreement.specs.Fates.{fate_of};

// Whether an assignment arrived, and how its blocks came out (1 ACK, 0 NACK). By default it is lost.
// No enum: inputs give both, in any order, and the outcomes of a lost assignment are kept as given, though nothing reads them.
#[derive(Clone, Copy, Debug, Default, PartialEq, Eq)]
pub struct Fate {
    pub arrived: bool,
    pub outcomes: [u8; 2],
}

impl Fate {
    // The fate of a number, counted from 1; past the list all is lost.
    pub fn of(fates: &[Fate], number: u32) -> Fate
        ensures { result ≡ fate_of fates.now number }
    {
        let index = (number as usize).saturating_sub(1);
        fates.get(index).copied().unwrap_or_default()
    }
}
