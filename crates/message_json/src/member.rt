ghost use Rattle.std.specs.Prelude.{◌≡◌};
ghost use Rattle.message_json.specs.Members.{member_text};

/// The members that a message may have.
#[derive(Clone, Copy, Debug, PartialEq, Eq)]
pub enum Member {
    Ask,
    Reply,
    Lease,
    Creates,
    Destroys,
    Cell,
    After,
    Number,
    Bucket,
    First,
    Last,
    By,
    Text,
    Value,
    Path,
    Named,
    Subject,
    SubjectId,
    Table,
    Row,
    Result,
    Leases,
    More,
    Low,
    High,
    Next,
    Items,
    Answer,
    Found,
    How,
    N,
    Id,
    Owner,
}

impl Member {
    /// The member's name in a body.
    pub fn text(self) -> &'static str
        ensures { result.now ≡ member_text self }
    {
        match self {
            Member::Ask => "ask",
            Member::Reply => "reply",
            Member::Lease => "lease",
            Member::Creates => "creates",
            Member::Destroys => "destroys",
            Member::Cell => "cell",
            Member::After => "after",
            Member::Number => "number",
            Member::Bucket => "bucket",
            Member::First => "first",
            Member::Last => "last",
            Member::By => "by",
            Member::Text => "text",
            Member::Value => "value",
            Member::Path => "path",
            Member::Named => "named",
            Member::Subject => "subject",
            Member::SubjectId => "subject_id",
            Member::Table => "table",
            Member::Row => "row",
            Member::Result => "result",
            Member::Leases => "leases",
            Member::More => "more",
            Member::Low => "low",
            Member::High => "high",
            Member::Next => "next",
            Member::Items => "items",
            Member::Answer => "answer",
            Member::Found => "found",
            Member::How => "how",
            Member::N => "n",
            Member::Id => "id",
            Member::Owner => "owner",
        }
    }
}
