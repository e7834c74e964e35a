ghost use Rattle.std.specs.Prelude.{◌≡◌, ℤ, option_map, string_bytes, MatchOption};
ghost use Rattle.std.specs.Option.{option_copied, unwrap_or};
ghost use Rattle.pgw_row.specs.ErrorInformation.{SaysPosition};

/// What is known of an error of the database, as a server tells it. Each text but the last may be missing.
#[derive(Debug, Drop)]
pub struct PgErrorInformation {
    /// The error in one line.
    pub message_primary: Option<String>,
    /// More about the error, in one line or several.
    pub detail: Option<String>,
    /// What may help.
    pub hint: Option<String>,
    /// The name of the table that the error is about.
    pub table: Option<String>,
    /// The name of the column that the error is about.
    pub column: Option<String>,
    /// The name of the constraint that the error is about.
    pub constraint: Option<String>,
    /// Where in the statement the error is: the place of a character, counted from 1, in decimal digits.
    pub position: Option<String>,
    /// The error as the client library tells it, where the server sent no message.
    pub error_message: String,
}

impl PgErrorInformation {
    /// The primary message, and where there is none `error_message`.
    pub fn message(&self) -> &str
        ensures { result.now
            ≡ unwrap_or (option_map string_bytes self.now.message_primary) (string_bytes self.now.error_message) }
    {
        match &self.message_primary {
            Some(message) => message,
            None => &self.error_message,
        }
    }

    /// More about the error, where the server told it.
    pub fn details(&self) -> Option<&str>
        ensures { option_copied result ≡ option_map string_bytes self.now.detail }
    {
        self.detail.as_deref()
    }

    /// What may help, where the server told it.
    pub fn hint(&self) -> Option<&str>
        ensures { option_copied result ≡ option_map string_bytes self.now.hint }
    {
        self.hint.as_deref()
    }

    /// The name of the table that the error is about, where the server told it.
    pub fn table_name(&self) -> Option<&str>
        ensures { option_copied result ≡ option_map string_bytes self.now.table }
    {
        self.table.as_deref()
    }

    /// The name of the column that the error is about, where the server told it.
    pub fn column_name(&self) -> Option<&str>
        ensures { option_copied result ≡ option_map string_bytes self.now.column }
    {
        self.column.as_deref()
    }

    /// The name of the constraint that the error is about, where the server told it.
    pub fn constraint_name(&self) -> Option<&str>
        ensures { option_copied result ≡ option_map string_bytes self.now.constraint }
    {
        self.constraint.as_deref()
    }

    /// Where in the statement the error is, as the place of a character, counted from 1. None exactly where the server
    /// told no position, or its text is not decimal digits, behind a sign or none, of a number that an `i32` holds.
    pub fn statement_position(&self) -> Option<i32>
        ensures { let text = option_map string_bytes self.now.position in
            MatchOption result ((n : ℤ) → ¬ (SaysPosition text n)) (SaysPosition text) }
    {
        self.position.as_deref()?.parse().ok()
    }
}
