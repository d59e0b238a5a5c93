//! The variables that the server has.
ghost use Rattle.std.specs.Prelude.{◌≡◌};
ghost use Rattle.client_statements.specs.Variables.{variable_name, variable_value, shown_variable, variable_of};

use crate::tokens::same_in_any_case;

/// A variable that the server has.
#[derive(Clone, Copy, Debug, PartialEq, Eq)]
pub enum Variable {
    AutoIncrementIncrement,
    Autocommit,
    CharacterSetClient,
    CharacterSetConnection,
    CharacterSetDatabase,
    CharacterSetResults,
    CharacterSetServer,
    CollationConnection,
    CollationDatabase,
    CollationServer,
    HaveOpenssl,
    HaveSsl,
    InitConnect,
    InteractiveTimeout,
    License,
    LowerCaseTableNames,
    MaxAllowedPacket,
    NetWriteTimeout,
    PerformanceSchema,
    ProtocolVersion,
    QueryCacheSize,
    QueryCacheType,
    ReadOnly,
    SqlAutoIsNull,
    SqlMode,
    SqlSafeUpdates,
    SystemTimeZone,
    TimeZone,
    TransactionIsolation,
    TransactionReadOnly,
    TxIsolation,
    TxReadOnly,
    UniqueChecks,
    Version,
    VersionComment,
    WaitTimeout,
}

/// The variables, by name.
pub const VARIABLES: [Variable; 36] = [
    Variable::AutoIncrementIncrement,
    Variable::Autocommit,
    Variable::CharacterSetClient,
    Variable::CharacterSetConnection,
    Variable::CharacterSetDatabase,
    Variable::CharacterSetResults,
    Variable::CharacterSetServer,
    Variable::CollationConnection,
    Variable::CollationDatabase,
    Variable::CollationServer,
    Variable::HaveOpenssl,
    Variable::HaveSsl,
    Variable::InitConnect,
    Variable::InteractiveTimeout,
    Variable::License,
    Variable::LowerCaseTableNames,
    Variable::MaxAllowedPacket,
    Variable::NetWriteTimeout,
    Variable::PerformanceSchema,
    Variable::ProtocolVersion,
    Variable::QueryCacheSize,
    Variable::QueryCacheType,
    Variable::ReadOnly,
    Variable::SqlAutoIsNull,
    Variable::SqlMode,
    Variable::SqlSafeUpdates,
    Variable::SystemTimeZone,
    Variable::TimeZone,
    Variable::TransactionIsolation,
    Variable::TransactionReadOnly,
    Variable::TxIsolation,
    Variable::TxReadOnly,
    Variable::UniqueChecks,
    Variable::Version,
    Variable::VersionComment,
    Variable::WaitTimeout,
];

/// The name of a variable.
pub fn variable_name(variable: Variable) -> &'static str
    ensures { result.now ≡ variable_name variable }
{
    match variable {
        Variable::AutoIncrementIncrement => "auto_increment_increment",
        Variable::Autocommit => "autocommit",
        Variable::CharacterSetClient => "character_set_client",
        Variable::CharacterSetConnection => "character_set_connection",
        Variable::CharacterSetDatabase => "character_set_database",
        Variable::CharacterSetResults => "character_set_results",
        Variable::CharacterSetServer => "character_set_server",
        Variable::CollationConnection => "collation_connection",
        Variable::CollationDatabase => "collation_database",
        Variable::CollationServer => "collation_server",
        Variable::HaveOpenssl => "have_openssl",
        Variable::HaveSsl => "have_ssl",
        Variable::InitConnect => "init_connect",
        Variable::InteractiveTimeout => "interactive_timeout",
        Variable::License => "license",
        Variable::LowerCaseTableNames => "lower_case_table_names",
        Variable::MaxAllowedPacket => "max_allowed_packet",
        Variable::NetWriteTimeout => "net_write_timeout",
        Variable::PerformanceSchema => "performance_schema",
        Variable::ProtocolVersion => "protocol_version",
        Variable::QueryCacheSize => "query_cache_size",
        Variable::QueryCacheType => "query_cache_type",
        Variable::ReadOnly => "read_only",
        Variable::SqlAutoIsNull => "sql_auto_is_null",
        Variable::SqlMode => "sql_mode",
        Variable::SqlSafeUpdates => "sql_safe_updates",
        Variable::SystemTimeZone => "system_time_zone",
        Variable::TimeZone => "time_zone",
        Variable::TransactionIsolation => "transaction_isolation",
        Variable::TransactionReadOnly => "transaction_read_only",
        Variable::TxIsolation => "tx_isolation",
        Variable::TxReadOnly => "tx_read_only",
        Variable::UniqueChecks => "unique_checks",
        Variable::Version => "version",
        Variable::VersionComment => "version_comment",
        Variable::WaitTimeout => "wait_timeout",
    }
}

/// What SELECT shows of a variable.
pub fn variable_value(variable: Variable, autocommit: bool) -> &'static str
    ensures { result.now ≡ variable_value variable autocommit }
{
    match variable {
        Variable::Autocommit => { if autocommit { "1" } else { "0" } }
        Variable::AutoIncrementIncrement | Variable::UniqueChecks => "1",
        Variable::CharacterSetClient
        | Variable::CharacterSetConnection
        | Variable::CharacterSetDatabase
        | Variable::CharacterSetResults
        | Variable::CharacterSetServer => "utf8mb4",
        Variable::CollationConnection | Variable::CollationDatabase | Variable::CollationServer =>
            "utf8mb4_bin",
        Variable::HaveOpenssl | Variable::HaveSsl => "DISABLED",
        Variable::InitConnect => "",
        Variable::InteractiveTimeout | Variable::WaitTimeout => "28800",
        Variable::License => "Apache-2.0",
        Variable::LowerCaseTableNames
        | Variable::PerformanceSchema
        | Variable::QueryCacheSize
        | Variable::ReadOnly
        | Variable::SqlAutoIsNull
        | Variable::SqlSafeUpdates
        | Variable::TransactionReadOnly
        | Variable::TxReadOnly => "0",
        Variable::MaxAllowedPacket => "1048576",
        Variable::NetWriteTimeout => "60",
        Variable::ProtocolVersion => "10",
        Variable::QueryCacheType => "OFF",
        Variable::SqlMode =>
            "ONLY_FULL_GROUP_BY,STRICT_TRANS_TABLES,NO_ZERO_IN_DATE,NO_ZERO_DATE,ERROR_FOR_DIVISION_BY_ZERO,NO_ENGINE_SUBSTITUTION",
        Variable::SystemTimeZone => "UTC",
        Variable::TimeZone => "SYSTEM",
        Variable::TransactionIsolation | Variable::TxIsolation => "REPEATABLE-READ",
        Variable::Version => "8.0.0-router",
        Variable::VersionComment => "Peamslik",
    }
}

/// What SHOW VARIABLES shows of a variable: a switch as ON or OFF.
pub fn shown_variable(variable: Variable, autocommit: bool) -> &'static str
    ensures { result.now ≡ shown_variable variable autocommit }
{
    match variable {
        Variable::Autocommit => { if autocommit { "ON" } else { "OFF" } }
        Variable::PerformanceSchema
        | Variable::ReadOnly
        | Variable::SqlAutoIsNull
        | Variable::SqlSafeUpdates
        | Variable::TransactionReadOnly
        | Variable::TxReadOnly => "OFF",
        Variable::UniqueChecks => "ON",
        _ => variable_value(variable, autocommit),
    }
}

/// The variable that has a name, in any case.
#[tactic(auto, unfolding(crate::specs::Variables::variable_of))]
pub fn variable_of(name: &[u8]) -> Option<Variable>
    ensures { result ≡ variable_of name.now }
{
    VARIABLES.iter().copied().find(|variable| same_in_any_case(
        name,
        variable_name(*variable).as_bytes(),
    ))
}
