//! The families of metrics: their names, their types and what they mean.

/// A family of samples.
#[derive(Clone, Copy)]
pub enum Family {
    Info,
    Started,
    Lost,
    Live,
    Queued,
    Workers,
    Waiting,
    Buffer,
    Begun,
    Ended,
    Statements,
    Times,
    Refused,
    Rows,
    Received,
    Sent,
    Workflow,
    CopySteps,
    FollowSteps,
    Copying,
    Behind,
    Cutovers,
    Cutover,
    Waited,
    Longest,
}

impl Family {
    ghost use Rattle.std.specs.Prelude.{◌≡◌};
    ghost use Rattle.status_page.specs.Families.{family_help, family_kind, family_name};

    /// Its name.
    #[tactic(auto, unfolding(crate::specs::Families::family_name))]
    pub fn name(self) -> &'static str
        ensures { result.now ≡ family_name self }
    {
        match self {
            Family::Info => "peamslik_info",
            Family::Started => "peamslik_start_time_seconds",
            Family::Lost => "peamslik_log_lines_lost_total",
            Family::Live => "peamslik_connections",
            Family::Queued => "peamslik_connections_queued",
            Family::Workers => "peamslik_workers",
            Family::Waiting => "peamslik_statements_waiting",
            Family::Buffer => "peamslik_statements_waiting_limit",
            Family::Begun => "peamslik_connections_begun_total",
            Family::Ended => "peamslik_connections_ended_total",
            Family::Statements => "peamslik_statements_total",
            Family::Times => "peamslik_statement_seconds",
            Family::Refused => "peamslik_refusals_total",
            Family::Rows => "peamslik_rows_total",
            Family::Received => "peamslik_received_bytes_total",
            Family::Sent => "peamslik_sent_bytes_total",
            Family::Workflow => "peamslik_workflow_state",
            Family::CopySteps => "peamslik_workflow_copy_steps",
            Family::FollowSteps => "peamslik_workflow_follow_steps",
            Family::Copying => "peamslik_workflow_targets_copying",
            Family::Behind => "peamslik_workflow_entries_behind",
            Family::Cutovers => "peamslik_cutovers_total",
            Family::Cutover => "peamslik_last_cutover_seconds",
            Family::Waited => "peamslik_last_cutover_waited_statements",
            Family::Longest => "peamslik_last_cutover_wait_seconds",
        }
    }

    /// Its type.
    #[tactic(auto, unfolding(crate::specs::Families::family_kind))]
    pub fn kind(self) -> &'static str
        ensures { result.now ≡ family_kind self }
    {
        match self {
            Family::Times => "histogram",
            Family::Lost
            | Family::Begun
            | Family::Ended
            | Family::Statements
            | Family::Refused
            | Family::Rows
            | Family::Received
            | Family::Sent
            | Family::Cutovers => "counter",
            _ => "gauge",
        }
    }

    /// What it is.
    #[tactic(auto, unfolding(crate::specs::Families::family_help))]
    pub fn help(self) -> &'static str
        ensures { result.now ≡ family_help self }
    {
        match self {
            Family::Info => "The version of the router.",
            Family::Started => "When the router started, in seconds since 1970.",
            Family::Lost => "Lines of the log that were lost.",
            Family::Live => "Connections of clients.",
            Family::Queued => "Connections that no worker has taken yet.",
            Family::Workers => "Threads that run statements.",
            Family::Waiting => "Statements that wait for a cutover.",
            Family::Buffer => "How many statements may wait for a cutover.",
            Family::Begun => "Connections that a worker has taken.",
            Family::Ended => "Connections that have ended, by how.",
            Family::Statements => "Statements that were answered, by kind.",
            Family::Times => "From the last byte of statements to their answer, by kind.",
            Family::Refused => "Refusals that were sent, by number.",
            Family::Rows => "Rows that were sent or changed.",
            Family::Received => "Bytes that clients sent.",
            Family::Sent => "Bytes that were sent to clients.",
            Family::Workflow => "1 for the state of the workflow, else 0.",
            Family::CopySteps => "Steps of the workflow that copied rows.",
            Family::FollowSteps => "Steps of the workflow that followed an entry of a source.",
            Family::Copying => "Targets with rows left to copy, as of the last admin line.",
            Family::Behind => {
                "Entries of sources that the targets haven't followed, as of the last admin line."
            }
            Family::Cutovers => "Cutovers that came.",
            Family::Cutover => {
                "When each part of the last cutover came, after the line that asked for it."
            }
            Family::Waited => "The most statements that waited during the last cutover.",
            Family::Longest => { "How long the first statement waited during the last cutover." }
        }
    }
}
