// The functions by name.
ghost use Rattle.std.specs.Prelude.{◌≡◌};
ghost use Rattle.asl_intrinsic_functions.specs.Names.{name_of, function_named, first_named, takes};

/// An intrinsic function (Amazon States Language, "Intrinsic Functions").
#[derive(Clone, Copy, Debug, PartialEq, Eq)]
pub enum Function {
    Format,
    StringToJson,
    JsonToString,
    Array,
    ArrayPartition,
    ArrayContains,
    ArrayRange,
    ArrayGetItem,
    ArrayLength,
    ArrayUnique,
    Base64Encode,
    Base64Decode,
    Hash,
    JsonMerge,
    MathAdd,
    StringSplit,
}

const ALL: [Function; 16] = [
    Function::Format,
    Function::StringToJson,
    Function::JsonToString,
    Function::Array,
    Function::ArrayPartition,
    Function::ArrayContains,
    Function::ArrayRange,
    Function::ArrayGetItem,
    Function::ArrayLength,
    Function::ArrayUnique,
    Function::Base64Encode,
    Function::Base64Decode,
    Function::Hash,
    Function::JsonMerge,
    Function::MathAdd,
    Function::StringSplit,
];

/// The first of these functions that has this name.
fn first_named(name: &str, functions: &[Function]) -> Option<Function>
    ensures { result ≡ first_named name.now functions.now }
{
    for function in functions {
        if name == function.name() {
            return Some(*function);
        }
    }
    None
}

impl Function {
    /// The name behind `States.`.
    #[tactic(auto, unfolding(crate::specs::Names::name_of))]
    pub fn name(self) -> &'static str
        ensures { result.now ≡ name_of self }
    {
        match self {
            Function::Format => "Format",
            Function::StringToJson => "StringToJson",
            Function::JsonToString => "JsonToString",
            Function::Array => "Array",
            Function::ArrayPartition => "ArrayPartition",
            Function::ArrayContains => "ArrayContains",
            Function::ArrayRange => "ArrayRange",
            Function::ArrayGetItem => "ArrayGetItem",
            Function::ArrayLength => "ArrayLength",
            Function::ArrayUnique => "ArrayUnique",
            Function::Base64Encode => "Base64Encode",
            Function::Base64Decode => "Base64Decode",
            Function::Hash => "Hash",
            Function::JsonMerge => "JsonMerge",
            Function::MathAdd => "MathAdd",
            Function::StringSplit => "StringSplit",
        }
    }

    /// The function of this name, without `States.`; names are told apart by case.
    pub fn named(name: &str) -> Option<Function>
        ensures { result ≡ function_named name.now }
    {
        first_named(name, &ALL)
    }

    /// Whether it takes so many arguments.
    pub fn takes(self, count: usize) -> bool
        ensures { result ≡ takes self count }
    {
        match self {
            Function::Array => true,
            Function::Format => count >= 1,
            Function::StringToJson
            | Function::JsonToString
            | Function::ArrayLength
            | Function::ArrayUnique
            | Function::Base64Encode
            | Function::Base64Decode => count == 1,
            Function::ArrayPartition
            | Function::ArrayContains
            | Function::ArrayGetItem
            | Function::Hash
            | Function::MathAdd
            | Function::StringSplit => count == 2,
            Function::ArrayRange | Function::JsonMerge => count == 3,
        }
    }
}
