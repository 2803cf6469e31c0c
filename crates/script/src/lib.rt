// One line of a script, read into a call of the tree.
//
//   open ENTRIES FOLDED plain|short "SOURCE"
//   name TEXT free|bound
//   name TEXT constant number N|string START LEN|boolean true|boolean false|null|undefined inlined|kept
//   build number N          build string START LEN    build boolean true|false   build null
//   build name INDEX        build array               build unary OP A           build binary OP A B
//   build template START LEN [A START LEN]..          build member A START LEN [optional]
//   build index A B [optional]    build call A [optional] [B]..    build chain A    build sequence A B [C]..
//   root A        read A        print CAPACITY
//
// Spaces separate the fields. A `#` where a field could begin makes the rest of the line a comment.
// "SOURCE" is a JSON string, and TEXT one or a bare word. N is a decimal number, with fraction and
// exponent as JavaScript has them, or `NaN`, `Infinity` or `-Infinity`. The other fields are decimal
// integers: nodes and indices count to `u16::MAX`, START and LEN to `u32::MAX`, and ENTRIES, FOLDED
// and CAPACITY to `usize::MAX`; one past that counts as that.
#![tactic(auto)]

mod builds;
pub mod calls;
pub mod expected;
pub mod fault;
mod fields;
pub mod lines;
mod numbers;
mod quoted;
