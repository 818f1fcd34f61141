//! Which answers requests want.

ghost use Rattle.std.specs.Prelude.{◌≡◌};
ghost use Rattle.py_rows.specs.Answers.{built, wanted};

use py_check::Kind;
use py_objects::{BuildKind, Request};
use py_rows::Wanted;

/// What may answer a request.
pub(crate) fn wanted(request: &Request) -> Wanted
    ensures { result ≡ wanted request.now }
{
    match request {
        Request::Unbound(_)
        | Request::UnboundCell(_, _)
        | Request::NoExit(_)
        | Request::NoAExit(_) => Wanted::NoValue,
        Request::Is(_, _) | Request::Contains(_, _) | Request::Truth(_) | Request::Match(_, _) =>
            Wanted::Truth,
        Request::Handled | Request::Raisable(_) => Wanted::Of(Kind::Exc),
        Request::Cause(_) => Wanted::ExceptionOrNone,
        Request::Method(_, _) => Wanted::Items(3),
        Request::Elements(_) => Wanted::Of(Kind::Tuple),
        Request::Unpack(_, count) => Wanted::Items(*count),
        Request::UnpackEx(_, before, after) => Wanted::Unpacked {
            before: *before,
            after: *after,
        },
        Request::Build(kind, _) => Wanted::Of(built(*kind)),
        _ => Wanted::Of(Kind::Any),
    }
}

/// What is built of items.
fn built(kind: BuildKind) -> Kind
    ensures { result ≡ built kind }
{
    match kind {
        BuildKind::Str => Kind::Str,
        BuildKind::Tuple => Kind::Tuple,
        BuildKind::List => Kind::List,
        BuildKind::Set => Kind::Set,
        BuildKind::Dict => Kind::Dict,
        BuildKind::Slice => Kind::Any,
    }
}
