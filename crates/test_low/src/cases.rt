//! Cases of the public calls below a shard that a text can reach, and scenes of rows that are pulled.
//!
//! | Area | Fields | Answer |
//! |---|---|---|
//! | `print` | a text of SQL | its printed form |
//! | `tokens` | a text of SQL | `kind:begin:end` of each token |
//! | `keyword` | a word | whether it is a keyword |
//! | `schema` | a VSchema | its keyspaces and tables, or the number of its fault |
//! | `plan` | ranges, a VSchema, a text of SQL | the line of its plan, or of its refusal |
//! | `opening` | ranges, a VSchema | slot, ordinal of the keyspace and range of each shard without rows, and how many tables it has |
//! | `asks` | a text of a client | what it asks of a server |
//! | `says` | a text of a client | what each of its tokens says, in brackets |
//! | `like` | a pattern, a name | whether the pattern fits the name |
//! | `tells` | a VSchema, the keyspace in use, a text of a client | what the session answers |
//! | `keyrange` | a name | begin and end |
//! | `covers` | names with commas between them | whether each id lies in just one range, and whether some two overlap |
//! | `contains` | a range's name, an id | whether the id lies in the range |
//! | `ranges` | a word | the ranges that it names, in their order |
//! | `ksid` | a vindex, a value | the value's keyspace id |
//! | `key` | a vindex, an id | the number that has this id |
//! | `cost` | a vindex | its cost |
//! | `compare` | two values | the truth of each comparison, and their order |
//! | `copy` | values | a copy of the row of them |
//! | `refusal` | a number | its code, state and message |
//! | `aggregate` | `count_star`, `count`, `sum`, `min` or `max`, values | what it gives over them |
//! | `merge` | keys as `0:desc`, the rows of an input, those of another, .. | the rows of their merge |
//! | `project` | ordinals, rows | the rows by the columns at these ordinals |
//! | `payloads` | a limit, pieces of a stream | each payload with its first and last number, and the fault |
//! | `packets` | a number, a payload | the packets, and the next number |
//! | `command` | a payload | the command |
//! | `ok` | a number, how many rows, a status | the OK packet, and the next number |
//! | `eof` | a number, a status | the EOF packet, and the next number |
//! | `err` | a number, a refusal's number | the ERR packet, and the next number |
//! | `lenenc` | a number | its length-encoded bytes |
//! | `string` | a text | its length-encoded bytes |
//! | `read_lenenc` | bytes | the number at their front, and what follows |
//! | `read_string` | bytes | the text at their front, and what follows |
//! | `native` | a password's stage 2, or `-`, a salt, a response | whether the response is right |
//! | `greeting` | a connection's number, a salt | the greeting, and the next number |
//! | `switch` | a number, a salt | the request to switch to native passwords, and the next number |
//! | `response` | a payload | capabilities, and in brackets user, answer, database and plugin of a response to a greeting |
//! | `result` | the bytes of a result from number 1, status 2 | the result, and its bytes as they are spelled again |
//! | `result_to_ok` | the same of a result whose sets end with an OK packet | the same |
//! | `lines` | a text | its lines, each in brackets |
//! | `line` | a line of a script | what it says |
//! | `rows` | rows | their printed form |
//! | `count` | a number | the printed form of a count |
//! | `error` | a refusal's number | its printed form |
//! | `laws` | none | `hold`, if each law is called without a premise |
//!
//! Several tokens, payloads, pieces or values have blanks between them, rows semicolons. Bytes and ids are in hexadecimal, a run of 64 or
//! more equal bytes as `(07*300)`; no bytes, and an open edge, are written `.`. In a text, each byte outside 20..7E and the backslash is
//! `\x` and two digits; a VSchema and a word are as they are. A value is `NULL`, a decimal number, or a text as `x` and hexadecimal. What
//! isn't there is written `none`, a syntax error as `refused`, another refusal as `refused` and its number. A line that is no case answers
//! `unknown`.

mod aggregates;
mod answers;
mod chunks;
mod clients;
mod failing;
mod handshakes;
mod ids;
mod inputs;
mod lines;
mod packets;
mod pulled;
mod pulled_scenes;
mod ranges;
mod results;
mod schemas;
mod statements;
mod values;

pub use answers::answer;
pub use pulled_scenes::answer_pulled;
