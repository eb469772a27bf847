ghost use Rattle.std.specs.Prelude.{◌≡◌};
ghost use Rattle.topology_http.specs.Paths.{path_of};

/// What a path asks for: a request of its kind, or one line of a script.
#[derive(Clone, Copy, Debug, PartialEq, Eq)]
pub enum Ask {
    Begin,
    Commit,
    Rollback,
    List,
    Range,
    Claims,
    Classify,
    /// A page, which a cell serves.
    Page,
    /// One line of a script, which a cell that runs alone serves.
    Line,
}

impl Ask {
    /// The path, which `specs/Paths` states.
    pub fn path(self) -> &'static str
        ensures { result.now ≡ path_of self }
    {
        match self {
            Ask::Begin => "/v1/leases/begin",
            Ask::Commit => "/v1/leases/commit",
            Ask::Rollback => "/v1/leases/rollback",
            Ask::List => "/v1/leases/list",
            Ask::Range => "/v1/ranges",
            Ask::Claims => "/v1/claims",
            Ask::Classify => "/v1/classify",
            Ask::Page => "/v1/pages",
            Ask::Line => "/v1/line",
        }
    }
}
