//! Files that the program prints as they are. `packaging/embed` writes this module from them.

/// The file `packaging/completions/tourkit.bash`.
pub static BASH: &[u8] =
    br#"# Completion for tourkit in bash. The package bash-completion finds it by its name; it needs nothing of that
# package.

# Offers the words among these that begin with the word at the cursor.
_tourkit_words() {
    local found
    mapfile -t found < <(compgen -W "$1" -- "$word")
    COMPREPLY+=("${found[@]}")
}

# Offers files.
_tourkit_files() {
    local found
    mapfile -t found < <(compgen -f -- "$word")
    COMPREPLY+=("${found[@]}")
    compopt -o filenames 2>/dev/null
}

# Offers the options of the command.
_tourkit_options() {
    case ${COMP_WORDS[1]} in
        check) _tourkit_words "--json -h --help" ;;
        checksol) _tourkit_words "--json -h --help" ;;
        explain) _tourkit_words "-h --help" ;;
        info) _tourkit_words "--json -h --help" ;;
        matrix) _tourkit_words "--json -h --help" ;;
        near) _tourkit_words "-k --json -h --help" ;;
        plot) _tourkit_words "--html --names -h --help" ;;
        solve) _tourkit_words "-o --output --trials --seconds --candidates --runs --seed --or-segment --construction
            --final-sweep --initial-tour --initial-solution --vehicles --within-routes --progress --log --json -h --help" ;;
    esac
}

# Offers values for the next argument of the command.
_tourkit_arguments() {
    local place given=0
    for ((place = 2; place < COMP_CWORD; place++)); do
        [[ ${COMP_WORDS[place]} == -?* ]] || given=$((given + 1))
    done
    case ${COMP_WORDS[1]}:$given in
        help:*) _tourkit_words "$commands" ;;
        matrix:1) _tourkit_words "FULL_MATRIX UPPER_ROW LOWER_ROW UPPER_DIAG_ROW LOWER_DIAG_ROW UPPER_COL LOWER_COL
            UPPER_DIAG_COL LOWER_DIAG_COL" ;;
        explain:0)
            _tourkit_words "UnknownKeyword Repeated Missing Unsupported BadNumber OutOfLimit BadNode NotSymmetric
                Truncated TrailingData BadDepot DemandOverCapacity TooLong Read NoMemory UnknownKey RepeatedKey BadValue
                MissingProblem DollarInName WrongCount OutOfRange RepeatedCity BadCustomer ServedTwice OverCapacity NotServed
                WrongCost"
            _tourkit_files
            ;;
        explain:* | --completions:*) ;;
        *) _tourkit_files ;;
    esac
}

_tourkit() {
    local word=${COMP_WORDS[COMP_CWORD]} before=${COMP_WORDS[COMP_CWORD - 1]}
    local commands="check checksol explain info matrix near plot solve help"
    COMPREPLY=()
    # Bash splits --option=value into three words.
    if [ "$word" = "=" ]; then
        word=
    elif [ "$before" = "=" ]; then
        before=${COMP_WORDS[COMP_CWORD - 2]}
    fi
    case $COMP_CWORD:$before:$word in
        1:*) _tourkit_words "$commands --completions -h --help -V --version" ;;
        *:--completions:*) _tourkit_words "bash zsh fish" ;;
        *:-k:* | *:--trials:* | *:--seconds:* | *:--candidates:* | *:--runs:* | *:--seed:* | *:--vehicles:*) ;;
        *:--or-segment:*) _tourkit_words "1 2 3" ;;
        *:--construction:*) _tourkit_words "nearest savings" ;;
        *:-o:* | *:--output:* | *:--log:* | *:--names:* | *:--initial-tour:* | *:--initial-solution:* | *:*[\<\>]:*) _tourkit_files ;;
        *:*:-*) _tourkit_options ;;
        *) _tourkit_arguments ;;
    esac
}
complete -F _tourkit tourkit
"#;

/// The file `packaging/completions/_tourkit`.
pub static ZSH: &[u8] = br#"#compdef tourkit
# Completion for tourkit in zsh. It can be a file _tourkit in a directory of fpath, or be sourced after compinit.

# Offers the arguments of explain: names of faults, and files.
_tourkit_what() {
    local -a faults
    faults=(UnknownKeyword Repeated Missing Unsupported BadNumber OutOfLimit BadNode NotSymmetric Truncated TrailingData
        BadDepot DemandOverCapacity TooLong Read NoMemory UnknownKey RepeatedKey BadValue MissingProblem DollarInName
        WrongCount OutOfRange RepeatedCity BadCustomer ServedTwice OverCapacity NotServed WrongCost)
    _alternative 'faults:fault:compadd -a faults' 'files:file:_files'
}

_tourkit() {
    local curcontext=$curcontext state line
    local -a commands help
    commands=(
        'check:Checks tours and prints their lengths'
        'checksol:Checks the routes of a CVRP and their cost'
        'explain:Explains a fault, or what is wrong with a file'
        'info:Prints what is known of a problem'
        'matrix:Prints a problem as a TSP with explicit weights'
        'near:Prints the nearest neighbours of each city'
        'plot:Draws a problem, and a tour or routes of it, as SVG or HTML'
        'solve:Searches for a short tour or for short routes'
        'help:Print this message or the help of the given subcommand(s)'
    )
    help=('(- *)'{-h,--help}'[Print help]')

    _arguments -C $help '(- *)'{-V,--version}'[Print version]' \
        '(- : *)--completions=[print the completions for a shell]:shell:(bash zsh fish)' \
        '1:command:->command' '*::argument:->argument'
    if [[ $state = command ]]; then
        _describe command commands
        return
    fi
    case $words[1] in
        (check)
            _arguments -s $help \
                '--json[print one JSON object for each file instead of text]' \
                '1:problem:_files' '*:tour:_files'
            ;;
        (checksol)
            _arguments -s $help \
                '--json[print one JSON object for each file instead of text]' \
                '1:problem:_files' '*:solution:_files'
            ;;
        (explain)
            _arguments -s $help '1:fault or file:_tourkit_what' '2:line: '
            ;;
        (info)
            _arguments -s $help \
                '--json[print one JSON object instead of text]' \
                '1:problem:_files'
            ;;
        (matrix)
            _arguments -s $help \
                '--json[print one JSON object instead of text]' \
                '1:problem:_files' \
                '2:format:(FULL_MATRIX UPPER_ROW LOWER_ROW UPPER_DIAG_ROW LOWER_DIAG_ROW
                    UPPER_COL LOWER_COL UPPER_DIAG_COL LOWER_DIAG_COL)'
            ;;
        (near)
            _arguments -s $help \
                '-k+[length of each list, 1 to 100]:number: ' \
                '--json[print one JSON object instead of text]' \
                '1:problem:_files'
            ;;
        (plot)
            _arguments -s $help \
                '--html[print an HTML page instead of an SVG picture]' \
                "--names=[show the names in column 'name' of the CSV file FILE on the page]:CSV file:_files" \
                '1:problem:_files' '2:tour or solution:_files' '3:other tour or solution:_files'
            ;;
        (solve)
            _arguments -s $help \
                '(-o --output)'{-o+,--output=}'[write the best tour, or the routes of a CVRP, to FILE]:file:_files' \
                '--trials=[trials per run, 1 to 1,000,000]:number: ' \
                '--seconds=[begin no trial after N seconds, 1 to 1,000,000]:number: ' \
                '--candidates=[length of the near lists, 1 to 100]:number: ' \
                '--runs=[number of runs, 1 to 10,000]:number: ' \
                '--seed=[seed of the random numbers]:number: ' \
                '--or-segment=[longest segment that an Or-opt move moves, 1 to 3]:number:(1 2 3)' \
                '--construction=[how to construct the starting tours (TSP only)]:how:(nearest savings)' \
                '--final-sweep[continue each trial until no city has an improving move]' \
                '--initial-tour=[start every run from this tour, or - for standard input (TSP only)]:tour:_files' \
                '--initial-solution=[start every run from these routes, or - for standard input (CVRP only)]:solution:_files' \
                '--vehicles=[exit with status 1 if the best solution has more routes than N (CVRP only)]:number: ' \
                '--within-routes[move no customers between routes, as with PARAMETERS (CVRP only)]' \
                "--progress[write each run's line to standard error when the run ends]" \
                '--log=[append a JSON object to FILE for each improvement of a run]:file:_files' \
                '--json[print one JSON object instead of text]' \
                '1:problem or parameters:_files'
            ;;
        (help)
            _describe command commands
            ;;
    esac
}

# In fpath, this file is the body of _tourkit until its first call.
if [[ $funcstack[1] = _tourkit ]]; then
    _tourkit "$@"
else
    compdef _tourkit tourkit
fi
"#;

/// The file `packaging/completions/tourkit.fish`.
pub static FISH: &[u8] = br#"# Completion for tourkit in fish. By default, fish offers files.

complete -c tourkit -s h -l help -d 'Print help'
complete -c tourkit -n __fish_use_subcommand -s V -l version -d 'Print version'
complete -c tourkit -n __fish_use_subcommand -l completions -x -a 'bash zsh fish' -d 'print the completions for a shell'
complete -c tourkit -n __fish_use_subcommand -f -a check -d 'Checks tours and prints their lengths'
complete -c tourkit -n __fish_use_subcommand -f -a checksol -d 'Checks the routes of a CVRP and their cost'
complete -c tourkit -n __fish_use_subcommand -f -a explain -d 'Explains a fault, or what is wrong with a file'
complete -c tourkit -n __fish_use_subcommand -f -a info -d 'Prints what is known of a problem'
complete -c tourkit -n __fish_use_subcommand -f -a matrix -d 'Prints a problem as a TSP with explicit weights'
complete -c tourkit -n __fish_use_subcommand -f -a near -d 'Prints the nearest neighbours of each city'
complete -c tourkit -n __fish_use_subcommand -f -a plot -d 'Draws a problem, and a tour or routes of it, as SVG or HTML'
complete -c tourkit -n __fish_use_subcommand -f -a solve -d 'Searches for a short tour or for short routes'
complete -c tourkit -n __fish_use_subcommand -f -a help -d 'Print this message or the help of the given subcommand(s)'

complete -c tourkit -n '__fish_seen_subcommand_from check' -l json -d 'print one JSON object for each file instead of text'

complete -c tourkit -n '__fish_seen_subcommand_from checksol' -l json -d 'print one JSON object for each file instead of text'

complete -c tourkit -n '__fish_seen_subcommand_from explain; and __fish_is_nth_token 2' -d fault \
    -a 'UnknownKeyword Repeated Missing Unsupported BadNumber OutOfLimit BadNode NotSymmetric Truncated TrailingData
        BadDepot DemandOverCapacity TooLong Read NoMemory UnknownKey RepeatedKey BadValue MissingProblem DollarInName
        WrongCount OutOfRange RepeatedCity BadCustomer ServedTwice OverCapacity NotServed WrongCost'
complete -c tourkit -n '__fish_seen_subcommand_from explain; and __fish_is_nth_token 3' -f

complete -c tourkit -n '__fish_seen_subcommand_from info' -l json -d 'print one JSON object instead of text'

complete -c tourkit -n '__fish_seen_subcommand_from matrix; and __fish_is_nth_token 3' -f \
    -a 'FULL_MATRIX UPPER_ROW LOWER_ROW UPPER_DIAG_ROW LOWER_DIAG_ROW UPPER_COL LOWER_COL UPPER_DIAG_COL LOWER_DIAG_COL'
complete -c tourkit -n '__fish_seen_subcommand_from matrix' -l json -d 'print one JSON object instead of text'

complete -c tourkit -n '__fish_seen_subcommand_from near' -s k -x -d 'length of each list, 1 to 100'
complete -c tourkit -n '__fish_seen_subcommand_from near' -l json -d 'print one JSON object instead of text'

complete -c tourkit -n '__fish_seen_subcommand_from plot' -l html -d 'print an HTML page instead of an SVG picture'
complete -c tourkit -n '__fish_seen_subcommand_from plot' -l names -r -F \
    -d "show the names in column 'name' of the CSV file FILE on the page"

complete -c tourkit -n '__fish_seen_subcommand_from solve' -s o -l output -r -F \
    -d 'write the best tour, or the routes of a CVRP, to FILE'
complete -c tourkit -n '__fish_seen_subcommand_from solve' -l trials -x -d 'trials per run, 1 to 1,000,000'
complete -c tourkit -n '__fish_seen_subcommand_from solve' -l seconds -x \
    -d 'begin no trial after N seconds, 1 to 1,000,000'
complete -c tourkit -n '__fish_seen_subcommand_from solve' -l candidates -x \
    -d 'length of the near lists, 1 to 100'
complete -c tourkit -n '__fish_seen_subcommand_from solve' -l runs -x -d 'number of runs, 1 to 10,000'
complete -c tourkit -n '__fish_seen_subcommand_from solve' -l seed -x -d 'seed of the random numbers'
complete -c tourkit -n '__fish_seen_subcommand_from solve' -l or-segment -x -a '1 2 3' \
    -d 'longest segment that an Or-opt move moves, 1 to 3'
complete -c tourkit -n '__fish_seen_subcommand_from solve' -l construction -x -a 'nearest savings' \
    -d 'how to construct the starting tours (TSP only)'
complete -c tourkit -n '__fish_seen_subcommand_from solve' -l final-sweep \
    -d 'continue each trial until no city has an improving move'
complete -c tourkit -n '__fish_seen_subcommand_from solve' -l initial-tour -r -F \
    -d 'start every run from this tour, or - for standard input (TSP only)'
complete -c tourkit -n '__fish_seen_subcommand_from solve' -l initial-solution -r -F \
    -d 'start every run from these routes, or - for standard input (CVRP only)'
complete -c tourkit -n '__fish_seen_subcommand_from solve' -l vehicles -x \
    -d 'exit with status 1 if the best solution has more routes than N (CVRP only)'
complete -c tourkit -n '__fish_seen_subcommand_from solve' -l within-routes \
    -d 'move no customers between routes, as with PARAMETERS (CVRP only)'
complete -c tourkit -n '__fish_seen_subcommand_from solve' -l progress \
    -d 'write each run\'s line to standard error when the run ends'
complete -c tourkit -n '__fish_seen_subcommand_from solve' -l log -r -F \
    -d 'append a JSON object to FILE for each improvement of a run'
complete -c tourkit -n '__fish_seen_subcommand_from solve' -l json -d 'print one JSON object instead of text'

complete -c tourkit -n '__fish_seen_subcommand_from help' -f -a 'check checksol explain info matrix near plot solve help'
"#;
