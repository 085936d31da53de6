//! Commands to an authority: tables whose other keys depend on their `cmd`.
ghost use Rattle.std.specs.Prelude.{◌≡◌, IfOk, Ok};
ghost use Rattle.certify_profile.specs.AuthorityCommands.{command_word, word_values, word_of_keys, issue_values, issue_of, revoke_values, revoke_of};
ghost use Rattle.certify_profile.specs.AuthorityCommands.{list_values, list_of, any_values, any_of, own_keys, command_keys, command};
ghost use Rattle.toml_format.specs.ReaderView.{entries_view, seen};
ghost use Rattle.toml_format.specs.Tables.{table_of, fields};
ghost use Rattle.toml_format.specs.Values.{text_as};

use rcgen_text::RevocationReason;
use std::alloc::{AllocError, Global};
use toml::Value;
use toml_format::{
    Entries, FromChoice, FromTable, FromText, FromValue, GivenName, Name, Reason, TableReader,
    Text, Timestamp, read_chosen, read_fields, read_table, text_as,
};

/// What is commanded.
#[derive(Clone, Copy)]
pub enum CommandWord {
    Issue,
    Revoke,
    List,
}

impl FromText for CommandWord {
    ghost from_text = { command_word };

    #[tactic(auto, unfolding(crate::specs::AuthorityCommands::command_word))]
    fn from_text(_alloc: Global, text: &str) -> Result<Option<CommandWord>, AllocError> {
        Ok(match text {
            "issue" => Some(CommandWord::Issue),
            "revoke" => Some(CommandWord::Revoke),
            "list" => Some(CommandWord::List),
            _ => None,
        })
    }
}

impl FromValue for CommandWord {
    ghost format = { text_as command_word };

    fn from_value(alloc: Global, value: &Value) -> Result<Result<CommandWord, Reason>, AllocError> {
        text_as(alloc, value)
    }
}

impl FromTable for CommandWord {
    type Keys = ((), CommandWord);

    ghost keys = { word_values };

    ghost of_keys = { word_of_keys };

    #[tactic(auto, unfolding(crate::specs::AuthorityCommands::word_values))]
    fn keys<'a>(
        alloc: Global,
        entries: Entries<'a>,
    ) -> Result<TableReader<'a, Self::Keys>, AllocError> {
        let reader = TableReader::new(entries).required(alloc, "cmd")?;
        Ok(reader)
    }

    #[tactic(auto, unfolding(crate::specs::AuthorityCommands::word_of_keys))]
    fn of_keys(values: Self::Keys) -> Result<CommandWord, Reason> {
        let ((), word) = values;
        Ok(word)
    }
}

/// The next certificate is to be issued.
#[derive(Drop)]
pub struct IssueCommand {
    /// The secret of the subject's key. Required.
    pub secret: Text,
    /// The subject. Required, so never `Name::Default`.
    pub name: Name,
    /// From when the certificate is valid. Required.
    pub not_before: Timestamp,
    /// Until when the certificate is valid. Required.
    pub not_after: Timestamp,
}

impl FromTable for IssueCommand {
    type Keys = (((((), Text), GivenName), Timestamp), Timestamp);

    ghost keys = { issue_values };

    ghost of_keys = { issue_of };

    #[tactic(auto, unfolding(crate::specs::AuthorityCommands::issue_values))]
    fn keys<'a>(
        alloc: Global,
        entries: Entries<'a>,
    ) -> Result<TableReader<'a, Self::Keys>, AllocError> {
        let reader = TableReader::new(entries)
            .required(alloc, "secret")?
            .and(alloc)?
            .required(alloc, "not_before")?
            .required(alloc, "not_after")?;
        Ok(reader)
    }

    #[tactic(auto, unfolding(crate::specs::AuthorityCommands::issue_of))]
    fn of_keys(values: Self::Keys) -> Result<IssueCommand, Reason> {
        let (((((), secret), given), not_before), not_after) = values;
        let GivenName { name } = given;
        Ok(IssueCommand {
            secret,
            name,
            not_before,
            not_after,
        })
    }
}

/// A certificate is to be revoked.
#[derive(Drop)]
pub struct RevokeCommand {
    /// The serial number of the certificate: any integer of TOML that isn't negative. Required.
    pub serial: u64,
    /// When the certificate was revoked. Required.
    pub time: Timestamp,
    /// Why it was revoked, if that is said.
    pub reason: Option<RevocationReason>,
}

impl FromTable for RevokeCommand {
    type Keys = ((((), u64), Timestamp), Option<RevocationReason>);

    ghost keys = { revoke_values };

    ghost of_keys = { revoke_of };

    #[tactic(auto, unfolding(crate::specs::AuthorityCommands::revoke_values))]
    fn keys<'a>(
        alloc: Global,
        entries: Entries<'a>,
    ) -> Result<TableReader<'a, Self::Keys>, AllocError> {
        let reader = TableReader::new(entries)
            .required(alloc, "serial")?
            .required(alloc, "time")?
            .optional(alloc, "reason")?;
        Ok(reader)
    }

    #[tactic(auto, unfolding(crate::specs::AuthorityCommands::revoke_of))]
    fn of_keys(values: Self::Keys) -> Result<RevokeCommand, Reason> {
        let ((((), serial), time), reason) = values;
        Ok(RevokeCommand {
            serial,
            time,
            reason,
        })
    }
}

/// The next revocation list is to be issued.
#[derive(Drop)]
pub struct ListCommand {
    /// When the list is issued. Required.
    pub this_update: Timestamp,
    /// When the next list is issued at the latest. Required.
    pub next_update: Timestamp,
}

impl FromTable for ListCommand {
    type Keys = (((), Timestamp), Timestamp);

    ghost keys = { list_values };

    ghost of_keys = { list_of };

    #[tactic(auto, unfolding(crate::specs::AuthorityCommands::list_values))]
    fn keys<'a>(
        alloc: Global,
        entries: Entries<'a>,
    ) -> Result<TableReader<'a, Self::Keys>, AllocError> {
        let reader = TableReader::new(entries)
            .required(alloc, "this_update")?
            .required(alloc, "next_update")?;
        Ok(reader)
    }

    #[tactic(auto, unfolding(crate::specs::AuthorityCommands::list_of))]
    fn of_keys(values: Self::Keys) -> Result<ListCommand, Reason> {
        let (((), this_update), next_update) = values;
        Ok(ListCommand {
            this_update,
            next_update,
        })
    }
}

/// The keys of all commands but `cmd`, none of which has to be there.
#[derive(Drop)]
pub struct AnyCommand;

/// The values at the keys of an issue, where there are any.
pub type IssueKeys = (
    ((((), Option<Text>), Name), Option<Timestamp>),
    Option<Timestamp>,
);

/// The values at the keys of a revocation, after the values `T` of the keys before.
pub type RevokeKeys<T> = (
    ((T, Option<u64>), Option<Timestamp>),
    Option<RevocationReason>,
);

/// The values at the keys of a list, after the values `T` of the keys before.
pub type ListKeys<T> = ((T, Option<Timestamp>), Option<Timestamp>);

impl FromTable for AnyCommand {
    type Keys = ListKeys<RevokeKeys<IssueKeys>>;

    ghost keys = { any_values };

    ghost of_keys = { any_of };

    #[tactic(auto, unfolding(crate::specs::AuthorityCommands::any_values))]
    fn keys<'a>(
        alloc: Global,
        entries: Entries<'a>,
    ) -> Result<TableReader<'a, Self::Keys>, AllocError> {
        let reader = TableReader::new(entries)
            .optional(alloc, "secret")?
            .and(alloc)?
            .optional(alloc, "not_before")?
            .optional(alloc, "not_after")?
            .optional(alloc, "serial")?
            .optional(alloc, "time")?
            .optional(alloc, "reason")?
            .optional(alloc, "this_update")?
            .optional(alloc, "next_update")?;
        Ok(reader)
    }

    #[tactic(auto, unfolding(crate::specs::AuthorityCommands::any_of))]
    fn of_keys(_values: Self::Keys) -> Result<AnyCommand, Reason> {
        Ok(AnyCommand)
    }
}

/// A command to an authority.
#[derive(Drop)]
pub enum AuthorityCommand {
    /// `issue`.
    Issue(IssueCommand),
    /// `revoke`.
    Revoke(RevokeCommand),
    /// `list`.
    List(ListCommand),
}

impl FromChoice for AuthorityCommand {
    type Choice = CommandWord;

    type All = AnyCommand;

    ghost own = { own_keys };

    #[tactic(auto, unfolding(toml_format::specs::TableReading::read_fields, toml_format::specs::TableReading::read_checked, toml_format::specs::ReaderView::seen))]
    fn own<'a>(
        alloc: Global,
        choice: CommandWord,
        entries: Entries<'a>,
    ) -> Result<TableReader<'a, AuthorityCommand>, AllocError> {
        match choice {
            CommandWord::Issue => {
                let TableReader { left, read } = read_fields::<IssueCommand>(alloc, entries)?;
                Ok(TableReader {
                    left,
                    read: read.map(AuthorityCommand::Issue),
                })
            }
            CommandWord::Revoke => {
                let TableReader { left, read } = read_fields::<RevokeCommand>(alloc, entries)?;
                Ok(TableReader {
                    left,
                    read: read.map(AuthorityCommand::Revoke),
                })
            }
            CommandWord::List => {
                let TableReader { left, read } = read_fields::<ListCommand>(alloc, entries)?;
                Ok(TableReader {
                    left,
                    read: read.map(AuthorityCommand::List),
                })
            }
        }
    }
}

impl FromTable for AuthorityCommand {
    type Keys = AuthorityCommand;

    ghost keys = { command_keys };

    ghost of_keys = { λ c. Ok c };

    fn keys<'a>(
        alloc: Global,
        entries: Entries<'a>,
    ) -> Result<TableReader<'a, Self::Keys>, AllocError> {
        read_chosen::<AuthorityCommand>(alloc, entries)
    }

    fn of_keys(command: AuthorityCommand) -> Result<AuthorityCommand, Reason> {
        Ok(command)
    }
}

impl FromValue for AuthorityCommand {
    ghost format = { table_of command };

    fn from_value(
        alloc: Global,
        value: &Value,
    ) -> Result<Result<AuthorityCommand, Reason>, AllocError> {
        read_table(alloc, value)
    }
}
