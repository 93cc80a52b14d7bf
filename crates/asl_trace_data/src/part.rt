// What makes a stage.
ghost use Rattle.std.specs.Prelude.{◌≡◌};
ghost use Rattle.asl_trace_data.specs.Lines.{name_of};

/// What of a state makes a stage of its data.
#[derive(Clone, Copy, Debug, PartialEq, Eq)]
pub enum Part {
    /// Nothing: the raw input.
    Input,
    /// `InputPath`.
    InputPath,
    /// `Parameters`.
    Parameters,
    /// `ItemsPath` of a Map.
    ItemsPath,
    /// `ItemSelector` of a Map, or `Parameters`: the list of the inputs of its iterations.
    ItemSelector,
    /// `Choices` of a Choice, which raise an error.
    Choices,
    /// What says how long a Wait waits, where it raises an error.
    Delay,
    /// What the service answers, the outputs of the branches, `Result` of a Pass, or the error of a Fail.
    Result,
    /// `ResultSelector`.
    ResultSelector,
    /// `ResultPath`.
    ResultPath,
    /// `OutputPath`.
    OutputPath,
    /// The limit of the size of an output, which raises an error.
    Output,
    /// `ResultPath` of the catcher that catches the error.
    Catch,
}

impl Part {
    /// What the stage is called.
    pub fn name(self) -> &'static str
        ensures { result.now ≡ name_of self }
    {
        match self {
            Part::Input => "input",
            Part::InputPath => "InputPath",
            Part::Parameters => "Parameters",
            Part::ItemsPath => "ItemsPath",
            Part::ItemSelector => "ItemSelector",
            Part::Choices => "Choices",
            Part::Delay => "delay",
            Part::Result => "result",
            Part::ResultSelector => "ResultSelector",
            Part::ResultPath => "ResultPath",
            Part::OutputPath => "OutputPath",
            Part::Output => "output",
            Part::Catch => "Catch",
        }
    }
}
