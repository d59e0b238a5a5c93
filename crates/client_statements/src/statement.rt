//! What a client may ask of a server besides SQL over tables.
use crate::variable::Variable;
use sql_tree::Name;
use vt_value::Items;

/// A value that a client asks for by name.
#[derive(Debug, Drop)]
pub enum NamedValue {
    /// `@@name`, of a variable that the server has.
    Variable(Variable),
    /// `@@name`, of one that it hasn't.
    Unknown(Name),
    /// `VERSION()`
    Version,
    /// `DATABASE()` or `SCHEMA()`
    Database,
    /// `CONNECTION_ID()`
    ConnectionId,
    /// `USER()`, `CURRENT_USER()`, `SESSION_USER()` or `SYSTEM_USER()`
    User,
}

/// A value that a SELECT asks for, and the name of its column.
#[derive(Debug, Drop)]
pub struct SelectItem {
    pub asked: NamedValue,
    pub name: Name,
}

/// A table, as SHOW COLUMNS and DESCRIBE name it.
#[derive(Debug, Drop)]
pub struct TableName {
    pub keyspace: Option<Name>,
    pub table: Name,
}

/// What a client asks of a server.
#[derive(Debug, Drop)]
pub enum ClientStatement {
    /// SET of settings that hold anyway, and of `autocommit`, if that is one of them.
    Set {
        autocommit: Option<bool>,
    },
    /// START TRANSACTION with what each transaction here has.
    Begin,
    /// What the server can't do or be set to.
    NotSupported,
    Select(Items<SelectItem>),
    Use(Name),
    ShowDatabases {
        like: Option<Name>,
    },
    ShowTables {
        full: bool,
        keyspace: Option<Name>,
        like: Option<Name>,
    },
    ShowColumns {
        full: bool,
        table: TableName,
        like: Option<Name>,
    },
    ShowVariables {
        like: Option<Name>,
    },
    ShowWarnings,
}
