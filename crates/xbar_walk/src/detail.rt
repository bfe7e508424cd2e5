/// How events are described: in words, or as JSON objects. In words it is also how many lines
/// describe the tests that a marker makes one after another on a row of switches, the junctor
/// switches of one frame.
#[derive(Clone, Copy)]
pub enum Detail {
    /// In words, with one line for each test.
    Each,
    /// In words, with one line for all of them.
    Short,
    /// JSON objects, each in a line of its own.
    JsonLines,
    /// JSON objects, each after a comma: after a first value they make an array's list.
    JsonList,
}

impl Detail {
    ghost use Rattle.std.specs.Prelude.{◌≡◌};
    ghost use Rattle.xbar_walk.specs.Items.{after_object as after_object_of, before_object as before_object_of, is_json as is_json_of};
    ghost use Rattle.xbar_walk.specs.Rows.{is_short as is_short_of};

    pub(crate) fn is_short(self) -> bool
        ensures { result ≡ is_short_of self }
    {
        match self {
            Detail::Short => true,
            Detail::Each | Detail::JsonLines | Detail::JsonList => false,
        }
    }

    pub(crate) fn is_json(self) -> bool
        ensures { result ≡ is_json_of self }
    {
        match self {
            Detail::Each | Detail::Short => false,
            Detail::JsonLines | Detail::JsonList => true,
        }
    }

    /// What is written before an object.
    pub(crate) fn before_object(self) -> &'static str
        ensures { result.now ≡ before_object_of self }
    {
        match self {
            Detail::JsonList => ",",
            Detail::Each | Detail::Short | Detail::JsonLines => "",
        }
    }

    /// What is written after an object.
    pub(crate) fn after_object(self) -> &'static str
        ensures { result.now ≡ after_object_of self }
    {
        match self {
            Detail::JsonLines => "\n",
            Detail::Each | Detail::Short | Detail::JsonList => "",
        }
    }
}
