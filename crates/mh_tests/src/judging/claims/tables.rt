//! What was changed or written of a refusal, and whether it shows what it says then.

/// Refusals with something taken out or changed.
pub static CHANGED: &str = r#"
a chain without its first link
changed link 0 @carrier @giver @quiet
=> V4 not shown;;
without its second
changed link 1 @carrier @giver @quiet
=> V4 not shown;;
with both
changed link 2 @carrier @giver @quiet
=> V4 shown;;
a cycle without its first arrow
changed arrow 0 @tests
=> V6 not shown;;
without its second
changed arrow 1 @tests
=> V6 not shown;;
with both
changed arrow 2 @tests
=> V6 shown;;
without the only one
changed arrow 0 @quits
=> V6 not shown;;
an event with data for which no link waits
changed data 0 @tests
=> V6 not shown;;
the number of another action
changed index 1 @tests
=> V6 not shown;;
another action
changed action 1 @tests
=> V6 not shown;;
a start-up in place of an event
changed by 0 @tests
=> V6 not shown;;
a start-up in place of a close-down
changed by 0 @quits
=> V6 not shown;;
an event with other data than the link names
changed data 0 @a {:Application ("~/a" 0) :Items ( {:Link 4 :EventSource 0 :EventType EngineEvent :EventData 5 :LinkEffect
( :SendEvent (0 0 EngineEvent 5) ) } ) }
=> V6 not shown;;
no scene, where the effect is that of a link of a scene
changed scene 0 @application @adds
=> V6 not shown;;
a list that is not said to have the item
changed held 0 @application @adds
=> V6 not shown;;
a variable that is not said to refer to the target
changed held 0 @a {:Application ("~/a" 0) :Items ( {:ObjectRefVar 1 :OrigValue 2 } {:IntegerVar 2 :OrigValue 0 } {:Link 3
:EventSource 2 :EventType TestEvent :LinkEffect ( :TestVariable (:IndirectRef 1 1 :GInteger 0) ) } ) }
=> V6 not shown"#;

/// Refusals that are written by hand: a reference at a place.
pub static WRITTEN: &str = r#"
what is not there
claimed 1 s 11 1 SetPosition s s 99 @application @absent
=> V1 shown;;
what is there, in the service and in the refusal
claimed 1 s 11 1 SetPosition s s 10 @application @scene
=> V1 not shown;;
in the refusal alone
claimed 1 s 11 1 SetPosition s s 10 @application @absent
=> V1 not shown;;
in the service alone
claimed 1 s 11 1 SetPosition s s 99 @application @scene
=> V1 not shown;;
without the scene nothing of it is active
claimed 1 s 11 1 SetPosition - s 99 @application @absent
=> V1 not shown;;
in a configuration whose scene the service does not have
claimed 1 a 0 1 Run x a 99 @a {:Application ("~/a" 0) :OnStartUp (:Run(99)) }
=> V1 not shown;;
in one that it has
claimed 1 a 0 1 Run - a 99 @a {:Application ("~/a" 0) :OnStartUp (:Run(99)) }
=> V1 shown;;
another action
claimed 1 s 11 1 SetBoxSize s s 99 @application @absent
=> V1 not shown;;
no action
claimed 1 s 11 1 - s s 99 @application @absent
=> V1 not shown;;
another number
claimed 1 s 11 2 SetPosition s s 99 @application @absent
=> V1 not shown;;
another object
claimed 1 s 10 1 SetPosition s s 99 @application @absent
=> V1 not shown;;
another kind
claimed 2 s 11 1 SetPosition s s 99 @application @absent
=> V2 not shown;;
through a variable, by no links
claimed 4 s 11 1 SetPosition s s 99 @application @absent
=> V4 not shown;;
a cycle without arrows
claimed 6 s 11 1 SetPosition s s 99 @application @absent
=> V6 not shown;;
that memory was refused
claimed 0 s 11 1 SetPosition s s 99 @application @absent
=> V0 not shown;;
of two that are wrong the second
claimed 1 s 12 1 Run s s 98 @application @s {:Scene ("~/s" 0) :Items ( {:Link 11 :EventSource 0 :EventType UserInput
:LinkEffect (:Run(99))} {:Link 12 :EventSource 0 :EventType UserInput :LinkEffect (:Run(98))} ) }
=> V1 shown;;
in a scene that is not reached
claimed 1 s 0 1 Run s s 99 @empty @s {:Scene ("~/s" 0) :OnStartUp (:Run(99)) }
=> V1 shown;;
a link whose source is not there
claimed 1 s 11 1 Run s s 99 @application @s {:Scene ("~/s" 0) :Items ( {:Link 11 :EventSource 5 :EventType UserInput
:LinkEffect (:Run(99))} ) }
=> V1 not shown"#;

/// And one that came there through a variable.
pub static BROUGHT: &str = r#"
an action that writes it
claimed 4 a 0 2 SetPosition - a 99 by a 0 1 a 1 @sets
=> V4 shown;;
no original value
claimed 4 a 0 2 SetPosition - a 99 by a 1 0 a 1 @sets
=> V4 not shown;;
the original value
claimed 4 a 0 2 SetPosition - a 10 by a 1 0 a 1 @sets
=> V4 not shown;;
another reference
claimed 4 a 0 2 SetPosition - a 98 by a 0 1 a 1 @sets
=> V4 not shown;;
into another variable
claimed 4 a 0 2 SetPosition - a 99 by a 0 1 a 2 @sets
=> V4 not shown;;
an action that writes nothing
claimed 4 a 0 2 SetPosition - a 99 by a 0 2 a 1 @sets
=> V4 not shown;;
what is written twice
claimed 4 a 0 2 SetPosition - a 99 by a 0 1 a 1 by a 0 1 a 1 @sets
=> V4 not shown;;
what is set from itself on the way
claimed 4 a 0 2 SetPosition - a 99 by a 0 1 a 1 by a 0 3 a 1 @sets
=> V4 shown;;
no links
claimed 4 a 0 2 SetPosition - a 99 @sets
=> V4 not shown;;
not through a variable
claimed 1 a 0 2 SetPosition - a 99 by a 0 1 a 1 @sets
=> V1 not shown"#;
