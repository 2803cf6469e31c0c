ghost use Rattle.std.specs.Prelude.{◌≡◌};
ghost use Rattle.nodes.specs.Spine.{link_of};

use crate::kind::Kind;
use crate::spine::Link;

// The step of a spine that a node of this kind makes.
pub fn link_of(kind: Kind) -> Option<Link>
    ensures { result ≡ link_of kind }
{
    match kind {
        Kind::Member {
            object,
            optional,
            ..
        }
        | Kind::Index {
            object,
            optional,
            ..
        } => Some(Link {
            part: object,
            optional,
        }),
        Kind::Call {
            callee,
            optional,
            ..
        } => Some(Link {
            part: callee,
            optional,
        }),
        _ => None,
    }
}
