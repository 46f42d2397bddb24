ghost use Rattle.std.specs.Prelude.{◌≡◌};
ghost use Rattle.cp_module.specs.Words.{rank};

/// Why a program is refused, in the order in which the causes of one line count.
#[derive(Debug, Clone, Copy, PartialEq, Eq, Drop)]
pub enum Why {
    BadUtf8,
    OpenQuote,
    OpenComment,
    BadEscape,
    WideNumber,
    Float,
    StrayByte,
    NoFullStop,
    Priority,
    UnexpectedToken,
    TooLarge,
    NoModuleHeader,
    BadDeclaration,
    BadBody,
    ClauseOfBuiltin,
    RuleOfShared,
    SharedTwice,
    TooManyClauses,
    TooManyModules,
    TooManyShared,
    DuplicateModule,
    NotExported,
    ImportClash,
    ClauseOfImported,
    BadAddress,
    NotRegular,
    BadHead,
    BadProperty,
    OnShared,
    NoMain,
}

impl Why {
    /// The place in the order in which the causes of one line count, from 0.
    pub fn rank(self) -> u8
        ensures { result ≡ rank self }
    {
        self as u8
    }
}
