// The letters that a body begins with: those of commands to the label, and those of commands to the station itself.
ghost use Rattle.std.specs.Prelude.{◌≡◌, Some};
ghost use Rattle.jobgroups.specs.Table.{letters_of};

use std::fmt;

#[derive(Clone, Copy, PartialEq, Eq, Debug)]
pub enum LabelLetters {
    D,
    C,
    Pc,
    Xb,
    RcLinks,
    Rc,
    Rb,
    Lc,
    Xr,
}

#[derive(Clone, Copy, PartialEq, Eq, Debug)]
pub enum StationLetters {
    Xs,
    Xo,
    Xp,
    Xq,
    J1,
    Ws,
    Wr,
}

#[derive(Clone, Copy, PartialEq, Eq, Debug)]
pub enum Letters {
    OfLabel(LabelLetters),
    OfStation(StationLetters),
}

/// The order in which letters are tried: `RC;` before `RC`.
pub const ORDER: [Letters; 16] = [
    Letters::OfLabel(LabelLetters::D),
    Letters::OfLabel(LabelLetters::C),
    Letters::OfLabel(LabelLetters::Pc),
    Letters::OfLabel(LabelLetters::Xb),
    Letters::OfLabel(LabelLetters::RcLinks),
    Letters::OfLabel(LabelLetters::Rc),
    Letters::OfLabel(LabelLetters::Rb),
    Letters::OfLabel(LabelLetters::Lc),
    Letters::OfLabel(LabelLetters::Xr),
    Letters::OfStation(StationLetters::Xs),
    Letters::OfStation(StationLetters::Xo),
    Letters::OfStation(StationLetters::Xp),
    Letters::OfStation(StationLetters::Xq),
    Letters::OfStation(StationLetters::J1),
    Letters::OfStation(StationLetters::Ws),
    Letters::OfStation(StationLetters::Wr),
];

impl Letters {
    pub fn as_str(self) -> &'static str
        ensures { result.now ≡ letters_of self }
    {
        match self {
            Letters::OfLabel(letters) => match letters {
                LabelLetters::D => "D",
                LabelLetters::C => "C",
                LabelLetters::Pc => "PC",
                LabelLetters::Xb => "XB",
                LabelLetters::RcLinks => "RC;",
                LabelLetters::Rc => "RC",
                LabelLetters::Rb => "RB",
                LabelLetters::Lc => "LC",
                LabelLetters::Xr => "XR",
            },
            Letters::OfStation(letters) => match letters {
                StationLetters::Xs => "XS",
                StationLetters::Xo => "XO",
                StationLetters::Xp => "XP",
                StationLetters::Xq => "XQ",
                StationLetters::J1 => "J1",
                StationLetters::Ws => "WS",
                StationLetters::Wr => "WR",
            },
        }
    }

    /// The bytes that a body of the command begins with.
    pub fn bytes(self) -> &'static [u8]
        ensures { result.now ≡ letters_of self }
    {
        self.as_str().as_bytes()
    }
}

impl fmt::Display for Letters {
    ghost output = { λ l. Some (letters_of l) };

    fn fmt<W: fmt::Write>(&self, f: &mut fmt::Formatter<W>) -> fmt::Result {
        f.write_str(self.as_str())
    }
}
