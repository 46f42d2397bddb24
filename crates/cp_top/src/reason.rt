ghost use Rattle.std.specs.Prelude.{◌≡◌};
ghost use Rattle.cp_top.specs.Lines.{why_text};

use cp_module::Why;

/// The name of a cause, as a refusal tells it.
pub(crate) fn why_text(why: Why) -> &'static [u8]
    ensures { result.now ≡ why_text why }
{
    match why {
        Why::BadUtf8 => b"BadUtf8",
        Why::OpenQuote => b"OpenQuote",
        Why::OpenComment => b"OpenComment",
        Why::BadEscape => b"BadEscape",
        Why::WideNumber => b"WideNumber",
        Why::Float => b"Float",
        Why::StrayByte => b"StrayByte",
        Why::NoFullStop => b"NoFullStop",
        Why::Priority => b"Priority",
        Why::UnexpectedToken => b"UnexpectedToken",
        Why::TooLarge => b"TooLarge",
        Why::NoModuleHeader => b"NoModuleHeader",
        Why::BadDeclaration => b"BadDeclaration",
        Why::BadBody => b"BadBody",
        Why::ClauseOfBuiltin => b"ClauseOfBuiltin",
        Why::RuleOfShared => b"RuleOfShared",
        Why::SharedTwice => b"SharedTwice",
        Why::TooManyClauses => b"TooManyClauses",
        Why::TooManyModules => b"TooManyModules",
        Why::TooManyShared => b"TooManyShared",
        Why::DuplicateModule => b"DuplicateModule",
        Why::NotExported => b"NotExported",
        Why::ImportClash => b"ImportClash",
        Why::ClauseOfImported => b"ClauseOfImported",
        Why::BadAddress => b"BadAddress",
        Why::NotRegular => b"NotRegular",
        Why::BadHead => b"BadHead",
        Why::BadProperty => b"BadProperty",
        Why::OnShared => b"OnShared",
        Why::NoMain => b"NoMain",
    }
}
