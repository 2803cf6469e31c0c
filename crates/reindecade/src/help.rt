pub const TEXT: &str =
    "reindecade reads a script from standard input, one call a line, and answers each with one line.

open ENTRIES FOLDED WRITER \"SOURCE\"    a tree of 16 to 4096 nodes; WRITER: plain | short; \"SOURCE\" is a JSON string
name TEXT free | bound
name TEXT constant number N | string START LEN | boolean true|false | null | undefined, then  inlined | kept
build number N            build string START LEN    build boolean true|false    build null
build name INDEX          build array               build unary OP A            build binary OP A B
build template START LEN [A START LEN]..            build member A START LEN [optional]
build index A B [optional]    build call A [optional] [B]..    build chain A    build sequence A B [C]..
root A        read A        print CAPACITY

A, B, C are node numbers, as build answered them. START and LEN name a part of SOURCE, in 16-bit units.
An answer is the call's word and a number: 0 is done, any other a refusal that leaves the tree as it was.
# begins a comment. A line that is no call is answered with what was expected, and the script goes on;
the exit status is 0 if every line was a call, else 1. The last line sums up.";
