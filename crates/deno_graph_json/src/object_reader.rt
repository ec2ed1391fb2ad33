//! Reading objects, member by member.

ghost use Rattle.std.specs.Prelude.{◌≡◌, ◌==◌, [], Some, MatchResult, length, option_map};
ghost use Rattle.serde_json.specs.Data.{Data, string};
ghost use Rattle.serde_json.specs.Events.{members_len};
ghost use Rattle.serde_json.specs.Find.{as_str, as_object, get_member};
ghost use Rattle.deno_graph_json.specs.Data.{data_of, members_data};
ghost use Rattle.deno_graph_json.specs.Found.{AreFound};
ghost use Rattle.deno_graph_json.specs.ObjectReader.{readable, value_of};
ghost use Rattle.deno_graph_json.specs.Read.Result.{IsReadResult, IsReadResultSeen, IsReadError};
ghost use Rattle.deno_graph_json.specs.Read.Error.{Expects, IsIn};
ghost use Rattle.deno_graph_json.specs.Read.Expected.{IsNot};
ghost use Rattle.deno_graph_json.specs.Read.Partial.{reads_array, member_at, member_or};

use crate::error::ReadError;
use crate::expected::Expected;
use crate::flat::{Element, Members};
use crate::read::{FromJson, read_member, read_object, read_str};
use deno_graph_base::values::Items;
use std::alloc::Global;
use std::marker::PhantomData;

/// Reads an object of the JSON of a `Whole`, member by member.
#[derive(Drop)]
pub struct ObjectReader<'v, Whole> {
    alloc: Global,
    members: Members<'v>,
    whole: PhantomData<Whole>,
}

impl<'v, Whole> ObjectReader<'v, Whole> {
    /// Begins to read an object. Allocates nothing. Returns `Mismatch` if the value is no object.
    pub fn new(alloc: Global, value: Element<'v>) -> Result<ObjectReader<'v, Whole>, ReadError>
        ensures { IsReadResultSeen readable (data_of value.entry) (as_object (data_of value.entry)) result }
    {
        let members = read_object(alloc, value)?;
        Ok(ObjectReader::of_members(alloc, members))
    }

    /// Begins to read the object with these members. Allocates nothing.
    pub fn of_members(alloc: Global, members: Members<'v>) -> ObjectReader<'v, Whole>
        ensures { readable result ≡ members_data members.entry }
    {
        ObjectReader {
            alloc,
            members,
            whole: PhantomData,
        }
    }

    /// Returns whether the object has one member, or several of one name.
    pub fn has_one_name(&self) -> bool
        ensures { result ≡ (members_len (readable self.now) == 1) }
    {
        self.members.have_one_name()
    }

    /// Finds the value of the last member with this name.
    #[inline(always)]
    pub fn get(&self, key: &str) -> Option<Element<'v>>
        ensures { option_map data_of result ≡ get_member key.now (readable self.now) }
    {
        self.members.get(key)
    }

    /// Finds the values of several members in one pass over the object, as `Members::find`.
    #[inline(always)]
    pub fn find(&self, keys: &[&str], found: &mut [Option<Element<'v>>])
        ensures length { length found.new ≡ length found.old }
        ensures found { AreFound keys.now (readable self.now) found.new }
    {
        self.members.find(keys, found)
    }

    /// Reads a required member.
    pub fn read<T: FromJson<Whole>>(&self, key: &'static str) -> Result<T, ReadError>
        ensures { IsReadResult (value_of self.now) (member_at T.reads key.now (readable self.now)) result }
    {
        self.read_found(key, self.get(key))
    }

    /// Reads a member, or returns `default` if the object has no such member.
    pub fn read_or<T: FromJson<Whole> + Drop>(&self, key: &str, default: T) -> Result<T, ReadError>
        ensures { IsReadResult (value_of self.now)
            (member_or T.reads key.now default (readable self.now)) result }
    {
        self.read_found_or(key, self.get(key), default)
    }

    /// Reads the items of a member that is an array, or returns none if the object has no such member.
    pub fn read_list<T: FromJson<Whole> + Drop>(&self, key: &str) -> Result<Items<T>, ReadError>
        ensures { IsReadResult (value_of self.now)
            (member_or (reads_array T.reads) key.now [] (readable self.now)) result }
    {
        self.read_or(key, Items::new(self.alloc))
    }

    /// Reads the text of a required member that is a string.
    pub fn read_str(&self, key: &'static str) -> Result<&'v str, ReadError>
        ensures { MatchResult result
            (λ text. get_member key.now (readable self.now) ≡ Some (string text.now))
            (IsReadError (value_of self.now) (member_at as_str key.now (readable self.now))) }
    {
        self.read_found_str(key, self.get(key))
    }

    /// Like `read`, for a member that `get` or `find` found.
    #[tactic(auto, unfolding(crate::specs::Read::Partial::member_at))]
    pub fn read_found<T: FromJson<Whole>>(
        &self,
        key: &'static str,
        found: Option<Element<'_>>,
    ) -> Result<T, ReadError>
        requires { option_map data_of found ≡ get_member key.now (readable self.now) }
        ensures { IsReadResult (value_of self.now) (member_at T.reads key.now (readable self.now)) result }
    {
        match found {
            Some(value) => read_member(self.alloc, key, value),
            None => Err(ReadError::expected(self.alloc, Expected::Member(key))),
        }
    }

    /// Like `read_or`, for a member that `get` or `find` found.
    #[tactic(auto, unfolding(crate::specs::Read::Partial::member_or))]
    pub fn read_found_or<T: FromJson<Whole> + Drop>(
        &self,
        key: &str,
        found: Option<Element<'_>>,
        default: T,
    ) -> Result<T, ReadError>
        requires { option_map data_of found ≡ get_member key.now (readable self.now) }
        ensures { IsReadResult (value_of self.now)
            (member_or T.reads key.now default (readable self.now)) result }
    {
        match found {
            Some(member) => read_member(self.alloc, key, member),
            None => Ok(default),
        }
    }

    /// Like `read_str`, for a member that `get` or `find` found.
    #[tactic(auto, unfolding(crate::specs::Read::Partial::member_at))]
    pub fn read_found_str<'a>(
        &self,
        key: &'static str,
        found: Option<Element<'a>>,
    ) -> Result<&'a str, ReadError>
        requires { option_map data_of found ≡ get_member key.now (readable self.now) }
        ensures { MatchResult result
            (λ text. get_member key.now (readable self.now) ≡ Some (string text.now))
            (IsReadError (value_of self.now) (member_at as_str key.now (readable self.now))) }
    {
        match found {
            Some(value) => match read_str(self.alloc, value) {
                Ok(text) => Ok(text),
                Err(error) => Err(error.in_member(self.alloc, key)),
            },
            None => Err(ReadError::expected(self.alloc, Expected::Member(key))),
        }
    }

    /// Returns the error of a member that isn't what is expected.
    pub fn member_error(&self, key: &str, expected: Expected) -> ReadError
        ensures place { (member : Data) → get_member key.now (readable self.now) ≡ Some member
            → IsNot expected member → IsIn (value_of self.now) result }
        ensures expected { Expects expected result }
    {
        ReadError::expected(self.alloc, expected).in_member(self.alloc, key)
    }
}
