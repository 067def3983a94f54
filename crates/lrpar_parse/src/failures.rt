//! Values that may be errors, which parses carry up: what traits of values are made with. Internal.
ghost use Rattle.std.specs.Prelude.{◌≡◌, ◌≢◌, None, Some, is_some};
ghost use Rattle.lrpar_parse.specs.ValueArguments.{first_failure};
ghost use Rattle.lrpar_parse.specs.Values.{ComesOut};

use crate::fault::ParseFault;
use lrpar_parse_run::values::AStackType;

/// Whether an argument is an error.
pub fn has_failure<LexemeT, V, E>(args: &[AStackType<LexemeT, Result<V, E>>]) -> bool
    ensures { result ≡ is_some (first_failure args.now) }
{
    for arg in args {
        if let AStackType::ActionType(Err(_)) = arg {
            return true;
        }
    }
    false
}

/// The first error among the arguments, of which one is an error.
pub fn first_failure<LexemeT: Drop, V: Drop, E: Drop>(
    args: Vec<AStackType<LexemeT, Result<V, E>>>,
) -> E
    requires { first_failure args.items ≢ None }
    ensures { first_failure args.items ≡ Some result }
{
    for arg in args {
        if let AStackType::ActionType(Err(error)) = arg {
            return error;
        }
    }
    unreachable!()
}

/// What comes out of a parse by these actions: a value with the rest of the answer, or an error alone.
pub fn come_out<V: Drop, E: Drop + From<ParseFault>, T: Drop>(
    parsed: Result<(Option<Result<V, E>>, T), ParseFault>,
) -> Result<(Option<V>, T), E>
    ensures { ComesOut E.from_gives parsed result }
{
    match parsed {
        Ok((value, rest)) => match value {
            Some(Ok(value)) => Ok((Some(value), rest)),
            Some(Err(error)) => Err(error),
            None => Ok((None, rest)),
        },
        Err(fault) => Err(E::from(fault)),
    }
}
