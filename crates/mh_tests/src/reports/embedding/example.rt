//! The files of the example `first`, and what is shown of it.

pub static APPLICATION: &str =
    r#"// A first service. This file is its application: the group that is there as long as the service is
// played. A file is one group, and its path inside the folder is the group's name: this one is `~/a`.
{:Application ("~/a" 0)
    // What is done when the application has started: it brings in the scene of the file `s`.
    :OnStartUp ( :TransitionTo (("~/s" 0)) )
}
"#;

pub static SCENE: &str =
    r#"// The scene: what is on the screen, and what the keys do. Its name is `~/s`.
{:Scene ("~/s" 0)
    // Register 3 lets the four colour keys, Text and Cancel through to the scene.
    :InputEventReg 3
    // The scene is laid out on 720 by 576 units.
    :SceneCS 720 576
    :Items (
        // A red box, two cells wide and two high: a cell is 12 units wide and 16 high. The colour is red,
        // green, blue and transparency, each an octet in hexadecimal digits.
        {:Rectangle 10
            :OrigBoxSize 24 32
            :OrigPosition 12 16
            :OrigLineWidth 0
            :OrigRefFillColour '=FF=00=00=00'
        }
        // A link waits for an event. Its source is object 0, the scene itself; the event is a key that
        // the scene hears, and 100 is the red key. What it does: object 10, the box, goes to 24, 16.
        {:Link 11
            :EventSource 0
            :EventType UserInput
            :EventData 100
            :LinkEffect ( :SetPosition (10 24 16) )
        }
    )
}
"#;

/// The steps and the cells of the two frames.
pub static SCREENS: &str = r#"11 of 12 steps
1 1: 32 000000 ff0000
1 2: 32 000000 ff0000
2 1: 32 000000 ff0000
2 2: 32 000000 ff0000
13 of 14 steps
1 2: 32 000000 ff0000
1 3: 32 000000 ff0000
2 2: 32 000000 ff0000
2 3: 32 000000 ff0000
"#;

/// The steps while the scene is late, and the steps and the cells once its file has come.
pub static LATE_SCREENS: &str = r#"3 of 12 steps
13 of 26 steps
1 1: 32 000000 ff0000
1 2: 32 000000 ff0000
2 1: 32 000000 ff0000
2 2: 32 000000 ff0000
"#;
