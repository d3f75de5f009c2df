use amp_plan::Plan;

/// What a seat is for.
pub enum Role {
    Filler,
    Asker,
    /// It was joined into another.
    Spent,
}

/// What a seat knows. No value of it is made.
pub struct View {
    pub role: Role,
    pub plan: Plan,
    /// How many levels it knows to be published.
    pub count: u64,
    /// How many value words of the next level are written.
    pub written: u64,
    pub looks: u64,
    pub latest: Option<u64>,
}
