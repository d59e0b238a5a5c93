//! A VSchema, statements and admin lines that many scenes have.
use crate::router::acts::Act;

/// The sharded keyspace `shop` with the table t.
pub const SHOP: &str =
    r#"{"keyspaces":{"shop":{"sharded":true,"vindexes":{"rev":{"type":"reverse_bits"}},"tables":{"t":{"columns":[{"name":"id","type":"BIGINT UNSIGNED"},{"name":"c","type":"BIGINT UNSIGNED","null":true}],"primary_key":["id"],"column_vindexes":[{"column":"id","name":"rev"}]}}}}}"#;

/// Three rows with even ids, which lie on the first shard.
pub const EVEN: Act<'static> = Act::One(
    b"INSERT INTO t (id, c) VALUES (2, NULL), (4, 7), (6, 1)",
    Ok(3),
);

/// Three with odd ids, which lie on the second.
pub const ODD: Act<'static> = Act::Two(
    b"INSERT INTO t (id, c) VALUES (1, NULL), (3, 7), (5, 9)",
    Ok(3),
);

/// A query of all rows.
pub const ALL: &[u8] = b"SELECT id FROM t";

/// An INSERT, whose row lies on the first shard.
pub const EIGHT: &[u8] = b"INSERT INTO t (id, c) VALUES (8, 1)";

/// Another.
pub const TEN: &[u8] = b"INSERT INTO t (id, c) VALUES (10, 1)";

/// One whose row lies on the second shard.
pub const SEVEN: Act<'static> = Act::Two(b"INSERT INTO t (id, c) VALUES (7, 1)", Ok(1));

/// A split of the first of two shards begins.
pub const BEGUN: Act<'static> = Act::Line(b"create -80 -40,40-80", b"ok\n");

/// One of its targets has copied its rows.
pub const COPIED: Act<'static> = Act::Line(b"step", b"ok copied\n");

/// Both are level with the first shard.
pub const LEVEL: Act<'static> = Act::Line(b"step", b"ok level\n");

/// Its cutover begins: the first shard is frozen.
pub const FREEZE: Act<'static> = Act::Line(b"advance", b"ok freeze\n");

/// The cutover is undone, or finished.
pub const RESUMED: Act<'static> = Act::Line(b"resume", b"ok\n");
