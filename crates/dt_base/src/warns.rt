ghost use Rattle.std.specs.Prelude.{◌≡◌};

/// What a statement says beside its answer.
#[derive(Clone, Copy)]
pub enum Warn {
    /// An integer that is neither 0 nor 1 became TRUE.
    W01,
    /// A text became NA.
    W02,
    /// The least or the greatest of nothing.
    W03,
    /// `dcast` counts duplicates.
    W04,
    /// `melt` joins several types.
    W05,
    /// Column names were repaired.
    W06,
}

/// A set of warnings.
#[derive(Clone, Copy)]
pub struct Warns {
    pub w01: bool,
    pub w02: bool,
    pub w03: bool,
    pub w04: bool,
    pub w05: bool,
    pub w06: bool,
}

impl Warns {
    ghost use Rattle.dt_base.specs.Warns.{no_warns, has_warn, with_warn, both_warns};

    /// No warning.
    pub fn none() -> Warns
        ensures { result ≡ no_warns }
    {
        Warns {
            w01: false,
            w02: false,
            w03: false,
            w04: false,
            w05: false,
            w06: false,
        }
    }

    /// Whether the warning is among these.
    pub fn has(&self, w: Warn) -> bool
        ensures { result ≡ has_warn self.now w }
    {
        match w {
            Warn::W01 => self.w01,
            Warn::W02 => self.w02,
            Warn::W03 => self.w03,
            Warn::W04 => self.w04,
            Warn::W05 => self.w05,
            Warn::W06 => self.w06,
        }
    }

    /// These and one more.
    pub fn with(self, w: Warn) -> Warns
        ensures { result ≡ with_warn self w }
    {
        let mut all = self;
        match w {
            Warn::W01 => all.w01 = true,
            Warn::W02 => all.w02 = true,
            Warn::W03 => all.w03 = true,
            Warn::W04 => all.w04 = true,
            Warn::W05 => all.w05 = true,
            Warn::W06 => all.w06 = true,
        }
        all
    }

    /// These and those.
    pub fn both(self, other: Warns) -> Warns
        ensures { result ≡ both_warns self other }
    {
        Warns {
            w01: self.w01 || other.w01,
            w02: self.w02 || other.w02,
            w03: self.w03 || other.w03,
            w04: self.w04 || other.w04,
            w05: self.w05 || other.w05,
            w06: self.w06 || other.w06,
        }
    }
}
