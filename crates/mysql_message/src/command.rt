//! Reads what a client asks for in the command phase.
ghost use Rattle.std.specs.Prelude.{◌≡◌, IfErr, option_map};
ghost use Rattle.std.specs.Result.{result_ok};
ghost use Rattle.mysql_message.specs.Messages.{request_of, option_of, command_of};

use vt_value::Refusal;

/// A command of a client. Its text borrows from its payload.
#[derive(Clone, Copy, Debug)]
pub enum Command<'a> {
    /// The client leaves.
    Quit,
    /// The name of the keyspace that the client wants to use.
    InitDb(&'a [u8]),
    /// The text of a statement.
    Query(&'a [u8]),
    /// The client asks whether the server is there.
    Ping,
    /// The client asks for a line about the server.
    Statistics,
    /// The client wants texts of several statements to be taken, or no longer.
    MultiStatements(bool),
    /// The client begins anew, without logging in again.
    Reset,
    /// The text of a statement that is to be prepared.
    Prepare(&'a [u8]),
    /// The number of a prepared statement, and its values.
    Execute(&'a [u8]),
    /// The numbers of a prepared statement and of one of its values, and a part of that.
    LongData(&'a [u8]),
    /// The number of a prepared statement that is given up.
    Close(&'a [u8]),
    /// The number of a prepared statement whose long data is given up.
    ResetStatement(&'a [u8]),
    /// The client asks for rows of a cursor.
    Fetch,
}

/// Why a prepared statement isn't executed, or none is prepared, for a cause that no text has.
#[derive(Clone, Copy, Debug, PartialEq, Eq)]
pub enum StatementFault {
    UnknownStatement,
    TooManyStatements,
    WrongArguments,
}

const COM_QUIT: u8 = 0x01;

const COM_INIT_DB: u8 = 0x02;

const COM_QUERY: u8 = 0x03;

const COM_STATISTICS: u8 = 0x09;

const COM_PING: u8 = 0x0E;

const COM_STMT_PREPARE: u8 = 0x16;

const COM_STMT_EXECUTE: u8 = 0x17;

const COM_STMT_SEND_LONG_DATA: u8 = 0x18;

const COM_STMT_CLOSE: u8 = 0x19;

const COM_STMT_RESET: u8 = 0x1A;

const COM_SET_OPTION: u8 = 0x1B;

const COM_STMT_FETCH: u8 = 0x1C;

const COM_RESET_CONNECTION: u8 = 0x1F;

/// MYSQL_OPTION_MULTI_STATEMENTS_ON and OFF, as COM_SET_OPTION has them.
const MULTI_STATEMENTS_ON: u8 = 0;

const MULTI_STATEMENTS_OFF: u8 = 1;

// What COM_SET_OPTION asks for by the bytes after it: a number of two bytes.
fn read_option(option: &[u8]) -> Result<Command<'_>, Refusal>
    ensures command { option_map request_of (result_ok result) ≡ option_of option.now }
    ensures err { IfErr result (λ e. e ≡ Refusal.UnknownCommand) }
{
    match option {
        [MULTI_STATEMENTS_ON, 0] => Ok(Command::MultiStatements(true)),
        [MULTI_STATEMENTS_OFF, 0] => Ok(Command::MultiStatements(false)),
        _ => Err(Refusal::UnknownCommand),
    }
}

// Promise: A payload is the command that it is, or an unknown one
/// The command that a payload asks for. Its first byte tells which; the bytes after that of COM_INIT_DB are the name of
/// the keyspace, those after that of COM_QUERY the text of the query, the two after that of COM_SET_OPTION the option, and those after
/// the bytes of prepared statements their text, number or values; those after the others aren't looked at. An empty payload, any other first byte and any other option are refused.
pub fn read_command(payload: &[u8]) -> Result<Command<'_>, Refusal>
    ensures command { option_map request_of (result_ok result) ≡ command_of payload.now }
    ensures err { IfErr result (λ e. e ≡ Refusal.UnknownCommand) }
{
    match payload {
        [COM_QUIT, ..] => Ok(Command::Quit),
        [COM_INIT_DB, name @ ..] => Ok(Command::InitDb(name)),
        [COM_QUERY, text @ ..] => Ok(Command::Query(text)),
        [COM_STATISTICS, ..] => Ok(Command::Statistics),
        [COM_PING, ..] => Ok(Command::Ping),
        [COM_STMT_PREPARE, text @ ..] => Ok(Command::Prepare(text)),
        [COM_STMT_EXECUTE, bytes @ ..] => Ok(Command::Execute(bytes)),
        [COM_STMT_SEND_LONG_DATA, bytes @ ..] => Ok(Command::LongData(bytes)),
        [COM_STMT_CLOSE, bytes @ ..] => Ok(Command::Close(bytes)),
        [COM_STMT_RESET, bytes @ ..] => Ok(Command::ResetStatement(bytes)),
        [COM_STMT_FETCH, ..] => Ok(Command::Fetch),
        [COM_SET_OPTION, option @ ..] => read_option(option),
        [COM_RESET_CONNECTION, ..] => Ok(Command::Reset),
        _ => Err(Refusal::UnknownCommand),
    }
}
